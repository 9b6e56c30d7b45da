// A text of which parts stand in the trace: most data that is sent is data that came, and needs no second place in memory.
ghost use Rattle.std.specs.Prelude.{◌≡◌, ◌≤◌, ◌++◌, [], length, slice_range, IfOk, OnOk};
ghost use Rattle.yoda_app.specs.Spliced.{IsSpliced, text_of};

use std::alloc::{AllocError, Global};

/// A shorter slice is copied, since a splice takes room too.
const SHORT: usize = 64;

/// The bytes of the trace from `start` up to `end`, which stand in a text behind so many of its own bytes.
#[derive(Clone, Copy, Debug, PartialEq, Eq)]
pub struct Splice {
    pub behind: usize,
    pub start: usize,
    pub end: usize,
}

/// A text of bytes of its own and, between them, slices of the trace. Each call is handed the trace.
#[derive(Drop)]
pub struct Spliced {
    pub own: Vec<u8>,
    /// In the order of the text.
    pub splices: Vec<Splice>,
}

impl Spliced {
    /// A text that begins with these bytes, with room for so many splices. The one error is want of memory.
    pub fn begin(alloc: Global, own: Vec<u8>, splices: usize) -> Result<Spliced, AllocError>
        ensures own { IfOk result (λ t. t.own.items ≡ own.items) }
        ensures none { IfOk result (λ t. t.splices.items ≡ []) }
    {
        let splices = Vec::with_capacity(alloc, splices)?;
        Ok(Spliced { own, splices })
    }

    /// Adds the bytes of the trace from `start` up to `end`. The one error is want of memory.
    pub fn add_slice(&mut self, trace: &[u8], start: usize, end: usize) -> Result<(), AllocError>
        requires spliced { IsSpliced trace.now self.old }
        requires ordered { start ≤ end }
        requires inside { end ≤ length trace.now }
        ensures spliced { OnOk result (IsSpliced trace.now self.new) }
        ensures added { OnOk result (text_of trace.now self.new ≡ text_of trace.now self.old ++ slice_range trace.now start end) }
    {
        if end - start < SHORT {
            self.own.extend_from_slice(&trace[start..end])?;
            return Ok(());
        }
        let behind = self.own.as_slice().len();
        self.splices.push(Splice { behind, start, end })?;
        Ok(())
    }
}
