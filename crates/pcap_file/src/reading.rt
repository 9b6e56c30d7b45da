ghost use Rattle.std.specs.Prelude.{◌≡◌, ◌≤◌, ◌<◌, ◌+◌, ◌-◌, ℕ, List, length, IfOk, IfErr, IfSome, IfNone, OnErr, None, Some};
ghost use Rattle.std.specs.Result.{result_err};
ghost use Rattle.common.specs.Faults.{first};
ghost use Rattle.pcap_file.specs.declared.capture.TheConstants.{FILE_LIMIT};
ghost use Rattle.pcap_file.specs.Capture.{settings_of, header_faults, record_faults, IsFrame};
ghost use Rattle.pcap_file.specs.Frames.{Capture, capture_of, left_of, ended, stopped, before, IsCapture};

use crate::capture::{Frame, Link, PcapFault, RECORD_LIMIT, Settings};
use crate::numbers::{u16_at, u32_at};
use std::marker::Model;

fn settings_at(bytes: &[u8]) -> Result<Settings, PcapFault>
    ensures found { IfOk result (λ s. (s ≡ settings_of bytes.now) × (24 ≤ length bytes.now)) }
    ensures fault { result_err result ≡ first (header_faults bytes.now) }
{
    if bytes.len() < 24 {
        return Err(PcapFault::HeaderCut(bytes.len() as u32));
    }
    let magic = u32_at(false, bytes, 0);
    let (little, nano) = match magic {
        0xa1b2_c3d4 => (false, false),
        0xa1b2_3c4d => (false, true),
        0xd4c3_b2a1 => (true, false),
        0x4d3c_b2a1 => (true, true),
        _ => return Err(PcapFault::Magic(magic)),
    };
    let major = u16_at(little, bytes, 4);
    let minor = u16_at(little, bytes, 6);
    if major != 2 || minor != 4 {
        return Err(PcapFault::Version { major, minor });
    }
    let link = match u32_at(little, bytes, 20) {
        1 => Link::Ethernet,
        101 => Link::Raw,
        other => return Err(PcapFault::Link(other)),
    };
    Ok(Settings { little, nano, link })
}

fn frame_at(settings: &Settings, bytes: &[u8], at: usize) -> Result<Option<Frame>, PcapFault>
    requires fits { length bytes.now ≤ FILE_LIMIT }
    requires inside { at ≤ length bytes.now }
    ensures found { IfOk result (λ o. IfSome o (IsFrame settings.now at bytes.now)) }
    ensures end { IfOk result (λ o. IfNone o (at ≡ length bytes.now)) }
    ensures more { IfErr result (λ e. at < length bytes.now) }
    ensures fault { IfErr result (λ e. first (record_faults settings.now at bytes.now) ≡ Some e) }
{
    if at == bytes.len() {
        return Ok(None);
    }
    if bytes.len() < at + 16 {
        return Err(PcapFault::RecordCut(at as u32));
    }
    let little = settings.little;
    let kept = u32_at(little, bytes, at + 8);
    if kept > RECORD_LIMIT {
        return Err(PcapFault::TooLarge {
            at: at as u32,
            kept,
        });
    }
    if bytes.len() < at + 16 + kept as usize {
        return Err(PcapFault::RecordCut(at as u32));
    }
    let fraction = u32_at(little, bytes, at + 4);
    Ok(Some(Frame {
        at: at + 16,
        seconds: u32_at(little, bytes, at),
        micros: if settings.nano {
            fraction / 1000
        } else {
            fraction
        },
        kept,
        original: u32_at(little, bytes, at + 12),
        link: settings.link,
    }))
}

/// A place in a capture that is read, and what the file header says. It does not hold the bytes: each call is handed
/// the bytes that were opened.
#[derive(Debug, Drop)]
pub struct Reader {
    settings: Settings,
    place: usize,
}

impl Model for Reader {
    ghost use Rattle.pcap_file.specs.Frames.{Reading};

    ghost Value = { Reading };

    ghost view = { λ r. record { settings = r.settings; place = r.place } };
}

impl Reader {
    /// Reads the file header. It takes no memory.
    pub fn open(bytes: &[u8]) -> Result<Reader, PcapFault>
        requires { length bytes.now ≤ FILE_LIMIT }
        // The frames that are left are those of the file.
        ensures left { IfOk result (λ r. left_of r bytes.now ≡ capture_of bytes.now) }
        // It is the first fault of the header, and Ok where there is none.
        ensures fault { result_err result ≡ first (header_faults bytes.now) }
        ensures refused { IfErr result (λ e. capture_of bytes.now ≡ stopped e) }

        ensures settings { IfOk result (λ r. r.settings ≡ settings_of bytes.now) }
        ensures place { IfOk result (λ r. r.place ≡ 24) }
        ensures inside { IfOk result (λ r. r.place ≤ length bytes.now) }
    {
        let settings = settings_at(bytes)?;
        Ok(Reader {
            settings,
            place: 24,
        })
    }

    /// The next frame of the bytes that were opened, and None at their end. A fault leaves the reader as it is, so that
    /// the same fault is answered again. It takes no memory.
    #[tactic(auto, using(crate::proofs::Walks::steps))]
    pub fn next(&mut self, bytes: &[u8]) -> Result<Option<Frame>, PcapFault>
        requires fits { length bytes.now ≤ FILE_LIMIT }
        requires inside { self.old.place ≤ length bytes.now }
        // The answer is the first of what was left, and behind a frame stands what is left now.
        ensures frame { IfOk result (λ o. IfSome o (λ f. left_of self.old bytes.now ≡ before f (left_of self.new bytes.now))) }
        ensures end { IfOk result (λ o. IfNone o (left_of self.old bytes.now ≡ ended)) }
        ensures fault { IfErr result (λ e. left_of self.old bytes.now ≡ stopped e) }

        // Where the frame stands, and what it says.
        ensures found { IfOk result (λ o. IfSome o (IsFrame self.old.settings self.old.place bytes.now)) }
        ensures moved { IfOk result (λ o. IfSome o (λ f. self.new.place ≡ f.at + f.kept)) }
        ensures at_end { IfOk result (λ o. IfNone o (self.new ≡ self.old)) }
        ensures stays { OnErr result (self.new ≡ self.old) }
        ensures settings { self.new.settings ≡ self.old.settings }
        ensures inside { self.new.place ≤ length bytes.now }
    {
        let found = frame_at(&self.settings, bytes, self.place)?;
        if let Some(frame) = &found {
            self.place = frame.at + frame.kept as usize;
        }
        Ok(found)
    }
}

/// A law: the frames of a file, and the fault that ends them, are what its bytes spell; and no file spells two such
/// lists.
pub fn capture_is_its_frames()
    ensures spelled { (bytes : List ℕ) → IsCapture bytes (capture_of bytes) }
    ensures only { (bytes : List ℕ) (c : Capture) → IsCapture bytes c → capture_of bytes ≡ c }
{}
