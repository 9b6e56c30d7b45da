ghost use Rattle.std.specs.Prelude.{◌≡◌, ◌≤◌, ◌<◌, ◌^◌, ◌+◌, ◌⊎◌, ◌∷◌, ◌++◌, if◌then◌else◌, true, length, slice_index, Some, None, Ok};
ghost use Rattle.byteorder.specs.Endian.{big_bytes};
ghost use Rattle.flow_record.specs.Forms.{extras_in as extras_read, extras_of as extras_said, form, padded, reading, fields, has_kind, length_of, sack_byte, scale_byte, side_byte, side_of};
ghost use Rattle.flow_record.specs.Records.{HasForm};

use crate::record::Record;
use common::{u16_at, u32_at};
use flow_id::{Flow, Side};
use seq_space::Num;

/// The byte of no scale.
const NO_SCALE: u8 = 0xff;

/// Why bytes are no form of a record.
#[derive(Clone, Copy, Debug, PartialEq, Eq)]
pub enum RecordFault {
    /// There are `have` bytes, and a form of this kind has `need`; any form has at least 2.
    Length { need: u8, have: u32 },
    /// Byte 0 is this version, neither 1 nor 2.
    Version(u8),
    /// Byte 1 is this kind, and none of 1 to 6, or of 1 and 4 in version 2.
    Kind(u8),
    /// This byte is none of its field's: a Fin's side, which is 0 or 1; who ends a flow by a Gone, 0 to 2; in version 2 a
    /// scale, 0 to 14 or 255 for none, or the mark behind it, 0 or 1, and 1 where there is no scale.
    Value(u8),
}

/// Fills the field with a version, a kind, these bytes and zeros, and answers how many stand before the zeros.
fn fill(out: &mut [u8; 24], version: u8, kind: u8, fields: &[u8]) -> u8
    requires { length fields.now ≤ 22 }
    ensures filled { out.new ≡ padded (version ∷ kind ∷ fields.now) }
    ensures length { result ≡ 2 + length fields.now }
{
    *out = [0; 24];
    out[0] = version;
    out[1] = kind;
    out[2..2 + fields.len()].copy_from_slice(fields);
    2 + fields.len() as u8
}

/// The bytes of a number.
fn bytes_of(number: Num) -> [u8; 4]
    ensures bytes { result ≡ big_bytes 4 number.0 }
    ensures fits { number.0 < 2 ^ 32 }
{
    number.0.to_be_bytes()
}

fn byte_of(side: Side) -> u8
    ensures { result ≡ side_byte side }
{
    match side {
        Side::Client => 0,
        Side::Server => 1,
    }
}

fn byte_of_scale(scale: Option<u8>) -> u8
    ensures { result ≡ scale_byte scale }
{
    scale.unwrap_or(NO_SCALE)
}

fn byte_of_sack(sack: bool) -> u8
    ensures { result ≡ sack_byte sack }
{
    sack as u8
}

fn read_side(byte: u8) -> Result<Side, RecordFault>
    ensures { result ≡ side_of byte }
{
    match byte {
        0 => Ok(Side::Client),
        1 => Ok(Side::Server),
        _ => Err(RecordFault::Value(byte)),
    }
}

/// Writes the form of a record and answers its length, 3 to 12 bytes. The rest of `out` is zero.
pub fn write_form(record: &Record, out: &mut [u8; 24]) -> u8
    requires { HasForm «record».now }
    ensures written { out.new ≡ padded (form «record».now) }
    ensures length { result ≡ length (form «record».now) }
    // What is written is read again.
    ensures again { reading (form «record».now) ≡ Ok «record».now }
{
    match *record {
        Record::Syn {
            number,
            mss,
            window,
            scale,
            sack,
        } => {
            let n = bytes_of(number);
            let m = mss.to_be_bytes();
            let w = window.to_be_bytes();
            if scale.is_none() && !sack {
                return fill(out, 1, 1, &[n[0], n[1], n[2], n[3], m[0], m[1], w[0], w[1]]);
            }
            let (s, p) = (byte_of_scale(scale), byte_of_sack(sack));
            fill(
                out,
                2,
                1,
                &[n[0], n[1], n[2], n[3], m[0], m[1], w[0], w[1], s, p],
            )
        }
        Record::Choice { server, rule } => {
            let s = server.to_be_bytes();
            let r = rule.to_be_bytes();
            fill(out, 1, 2, &[s[0], s[1], r[0], r[1]])
        }
        Record::Port(owner) => fill(out, 1, 3, &owner.to_bytes()),
        Record::Open {
            server,
            port,
            number,
            scale,
            sack,
        } => {
            let s = server.to_be_bytes();
            let p = port.to_be_bytes();
            let n = bytes_of(number);
            if scale.is_none() && !sack {
                return fill(out, 1, 4, &[s[0], s[1], p[0], p[1], n[0], n[1], n[2], n[3]]);
            }
            let (w, q) = (byte_of_scale(scale), byte_of_sack(sack));
            fill(
                out,
                2,
                4,
                &[s[0], s[1], p[0], p[1], n[0], n[1], n[2], n[3], w, q],
            )
        }
        Record::Fin { side, number } => {
            let n = bytes_of(number);
            fill(out, 1, 5, &[byte_of(side), n[0], n[1], n[2], n[3]])
        }
        Record::Gone { by } => fill(out, 1, 6, &[by]),
    }
}

/// The scale and the mark of selective acknowledgments that two bytes say.
fn extras_of(scale: u8, sack: u8) -> Result<(Option<u8>, bool), RecordFault>
    ensures { result ≡ extras_said scale sack }
{
    if scale > 14 && scale < NO_SCALE {
        return Err(RecordFault::Value(scale));
    }
    if sack > 1 || scale == NO_SCALE && sack == 0 {
        return Err(RecordFault::Value(sack));
    }
    let scale = if scale == NO_SCALE { None } else { Some(scale) };
    Ok((scale, sack == 1))
}

/// Those of the form of a Syn or an Open: in version 1 there are none.
fn extras_in(bytes: &[u8]) -> Result<(Option<u8>, bool), RecordFault>
    requires some { 1 ≤ length bytes.now }
    requires whole { slice_index bytes.now 0 ≡ 2 → length bytes.now ≡ 12 }
    requires version { (slice_index bytes.now 0 ≡ 1) ⊎ (slice_index bytes.now 0 ≡ 2) }
    ensures { result ≡ extras_read bytes.now }
{
    if bytes[0] == 1 {
        return Ok((None, false));
    }
    extras_of(bytes[10], bytes[11])
}

/// The record of this kind whose fields the bytes have.
#[tactic(auto, using(std::proofs::lemmas::Slice::between_to_end))]
fn read_fields(kind: u8, bytes: &[u8]) -> Result<Record, RecordFault>
    requires version { (slice_index bytes.now 0 ≡ 1) ⊎ (slice_index bytes.now 0 ≡ 2) }
    requires known { has_kind (slice_index bytes.now 0) kind ≡ true }
    requires length { length bytes.now ≡ length_of (slice_index bytes.now 0) kind }
    ensures { result ≡ fields kind bytes.now }
{
    match kind {
        1 => {
            let (scale, sack) = extras_in(bytes)?;
            Ok(Record::Syn {
                number: Num(u32_at(bytes, 2)),
                mss: u16_at(bytes, 6),
                window: u16_at(bytes, 8),
                scale,
                sack,
            })
        }
        2 => Ok(Record::Choice {
            server: u16_at(bytes, 2),
            rule: u16_at(bytes, 4),
        }),
        3 => Ok(Record::Port(Flow::from_bytes(&bytes[2..]))),
        4 => {
            let (scale, sack) = extras_in(bytes)?;
            Ok(Record::Open {
                server: u16_at(bytes, 2),
                port: u16_at(bytes, 4),
                number: Num(u32_at(bytes, 6)),
                scale,
                sack,
            })
        }
        5 => Ok(Record::Fin {
            side: read_side(bytes[2])?,
            number: Num(u32_at(bytes, 3)),
        }),
        _ if bytes[2] > 2 => Err(RecordFault::Value(bytes[2])),
        _ => Ok(Record::Gone { by: bytes[2] }),
    }
}

/// The length of a form of this version and kind. None where the version does not have the kind.
fn length_by(version: u8, kind: u8) -> Option<u8>
    requires { (version ≡ 1) ⊎ (version ≡ 2) }
    ensures { result ≡ (if has_kind version kind then Some (length_of version kind) else None) }
{
    match (version, kind) {
        (2, 1 | 4) => Some(12),
        (2, _) => None,
        (_, 1 | 4) => Some(10),
        (_, 2) => Some(6),
        (_, 3) => Some(12),
        (_, 5) => Some(7),
        (_, 6) => Some(3),
        _ => None,
    }
}

/// Reads the form of a record. The faults are looked for in this order: fewer than two bytes, another version, a kind
/// that the version does not have, another length than that kind's in this version, and a value that is none of its
/// field's.
pub fn read_form(bytes: &[u8]) -> Result<Record, RecordFault>
    requires { length bytes.now < 2 ^ 32 }
    ensures { result ≡ reading bytes.now }
{
    let have = bytes.len() as u32;
    if have < 2 {
        return Err(RecordFault::Length { need: 2, have });
    }
    let version = bytes[0];
    if version != 1 && version != 2 {
        return Err(RecordFault::Version(version));
    }
    let kind = bytes[1];
    let Some(need) = length_by(version, kind) else {
        return Err(RecordFault::Kind(kind));
    };
    if have != need as u32 {
        return Err(RecordFault::Length { need, have });
    }
    read_fields(kind, bytes)
}
