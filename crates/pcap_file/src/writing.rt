ghost use Rattle.std.specs.Prelude.{◌≡◌, ◌≤◌, ◌<◌, ◌+◌, ◌++◌, List, length, vec_len, vec_capacity, OnOk, OnErr};
ghost use Rattle.std.specs.List.{AllByRecursion};
ghost use Rattle.pcap_file.specs.declared.capture.TheConstants.{RECORD_LIMIT};
ghost use Rattle.pcap_file.specs.Written.{header_bytes, head_bytes, record_bytes, Record, Fits, IsReadAgain};

use std::alloc::AllocError;

const HEADER: [u8; 24] = [
    0xd4, 0xc3, 0xb2, 0xa1, 2, 0, 4, 0, 0, 0, 0, 0, 0, 0, 0, 0, 0xff, 0xff, 0, 0, 101, 0, 0, 0,
];

/// Writes the file header of a capture of raw IP packets at the end of `out`: the lowest byte first, microseconds,
/// version 2.4, snap length 65535. The one error is want of memory, and then `out` is as it was.
pub fn write_header(out: &mut Vec<u8>) -> Result<(), AllocError>
    ensures ok { OnOk result (out.new.items ≡ out.old.items ++ header_bytes) }
    ensures err { OnErr result (out.new.items ≡ out.old.items) }
{
    out.extend_from_slice(&HEADER)
}

#[tactic(auto, unfolding(crate::specs::Written::head_bytes))]
fn head_of(seconds: u32, micros: u32, kept: u32) -> [u8; 16]
    ensures { result ≡ head_bytes seconds micros kept }
{
    let s = seconds.to_le_bytes();
    let m = micros.to_le_bytes();
    let k = kept.to_le_bytes();
    [
        s[0], s[1], s[2], s[3], m[0], m[1], m[2], m[3], k[0], k[1], k[2], k[3], k[0], k[1], k[2],
        k[3],
    ]
}

/// Writes the head of the record of a frame of `kept` bytes, which is kept whole, at the end of `out`; the frame itself is
/// to follow it. The one error is want of memory, and then `out` is as it was.
pub fn write_record_head(
    seconds: u32,
    micros: u32,
    kept: u32,
    out: &mut Vec<u8>,
) -> Result<(), AllocError>
    ensures ok { OnOk result (out.new.items ≡ out.old.items ++ head_bytes seconds micros kept) }
    ensures err { OnErr result (out.new.items ≡ out.old.items) }
    ensures len { OnOk result (vec_len out.new ≡ vec_len out.old + 16) }
    // Where there was room for the head it is written, and the room behind it stays.
    ensures room { OnErr result (vec_capacity out.old < vec_len out.old + 16) }
    ensures capacity { vec_capacity out.old ≤ vec_capacity out.new }
{
    out.extend_from_slice(&head_of(seconds, micros, kept))
}

/// Writes the record of a frame that is kept whole at the end of `out`. The one error is want of memory, and then `out`
/// is as it was.
pub fn write_record(
    seconds: u32,
    micros: u32,
    bytes: &[u8],
    out: &mut Vec<u8>,
) -> Result<(), AllocError>
    requires { length bytes.now ≤ RECORD_LIMIT }
    ensures ok { OnOk result (out.new.items ≡ out.old.items ++ record_bytes seconds micros bytes.now) }
    ensures err { OnErr result (out.new.items ≡ out.old.items) }
{
    out.reserve(16 + bytes.len())?;
    write_record_head(seconds, micros, bytes.len() as u32, out)?;
    out.extend_from_slice(bytes)?;
    Ok(())
}

/// A law: the records of a file that is written are read again, with their bytes.
pub fn written_capture_is_read()
    ensures { (records : List Record) → AllByRecursion Fits records → IsReadAgain records }
{}
