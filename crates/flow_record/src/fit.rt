ghost use Rattle.std.specs.Prelude.{◌≡◌};
ghost use Rattle.flow_record.specs.Records.{fits_key, is_scale as is_scale_by};

use crate::record::Record;
use flow_id::Key;

/// Whether windows are shifted by so many bits, or not at all: by 14 at most (RFC 7323, 2.3).
fn is_scale(scale: Option<u8>) -> bool
    ensures { result ≡ is_scale_by scale }
{
    scale.unwrap_or(0) <= 14
}

/// Whether the record may stand under the key: its kind is the key's, the scale of a Syn or an Open, if it has one, is at
/// most 14, a Fin's side is the key's side, and a Gone's `by` is at most 2.
pub fn fits(key: &Key, record: &Record) -> bool
    ensures { result ≡ fits_key key.now «record».now }
{
    match (*key, *record) {
        (Key::Syn(_), Record::Syn { scale, .. }) => is_scale(scale),
        (Key::Choice(_), Record::Choice { .. }) => true,
        (Key::Port { .. }, Record::Port(_)) => true,
        (Key::Open(_), Record::Open { scale, .. }) => is_scale(scale),
        (Key::Fin(_, asked), Record::Fin { side, .. }) => asked == side,
        (Key::Gone(_), Record::Gone { by }) => by <= 2,
        _ => false,
    }
}
