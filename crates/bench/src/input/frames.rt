ghost use Rattle.std.specs.Prelude.{◌≡◌, ◌≤◌, length, IfOk};
ghost use Rattle.bench.specs.declared.input.inputs.TheConstants.{TRACE_BYTES};
ghost use Rattle.pcap_file.specs.Frames.{capture_of, left_of};

use pcap_file::{Frame, Reader};
use std::alloc::{AllocError, Global};
use std::marker::Model;

/// The frames of a trace, in their order, which contracts see as a list.
#[derive(Drop)]
pub struct Frames {
    items: Vec<Frame>,
}

impl Model for Frames {
    ghost use Rattle.std.specs.Prelude.{List};
    ghost use Rattle.pcap_file.specs.declared.capture.Frame.{Frame as FrameOf};

    ghost Value = { List FrameOf };

    ghost view = { λ f. f.items.items };
}

impl Frames {
    /// The frames of a trace, up to its end or its first fault, with room for so many. The one error is want of memory.
    pub fn of(alloc: Global, trace: &[u8], records: u32) -> Result<Frames, AllocError>
        requires { length trace.now ≤ TRACE_BYTES }
        ensures { IfOk result (λ frames. frames ≡ (capture_of trace.now).frames) }
    {
        match Reader::open(trace) {
            Ok(reader) => Frames::from(alloc, reader, trace, records),
            Err(_) => Ok(Frames {
                items: Vec::new(alloc),
            }),
        }
    }

    // The frames that a reader has left.
    fn from(
        alloc: Global,
        mut reader: Reader,
        trace: &[u8],
        records: u32,
    ) -> Result<Frames, AllocError>
        requires fits { length trace.now ≤ TRACE_BYTES }
        requires inside { reader.place ≤ length trace.now }
        ensures { IfOk result (λ frames. frames ≡ (left_of reader trace.now).frames) }
    {
        let mut items = Vec::with_capacity(alloc, records as usize)?;
        while let Ok(Some(frame)) = reader.next(trace) {
            items.push(frame)?;
        }
        Ok(Frames { items })
    }

    /// The frames, lent. It takes no memory.
    pub fn as_slice(&self) -> &[Frame]
        ensures { result.now ≡ self.now }
    {
        self.items.as_slice()
    }
}
