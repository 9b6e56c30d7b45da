ghost use Rattle.std.specs.Prelude.{◌≡◌, IfOk, IsTrue};
ghost use Rattle.flow_record.specs.Forms.{form, reading};
ghost use Rattle.flow_record.specs.Records.{HasForm, fits_key};

use crate::record::Record;
use flow_id::Key;

/// Bytes that are read as a record are the form of that record: it has no other.
pub fn one_form(bytes: &[u8])
    ensures { IfOk (reading bytes.now) (λ r. form r ≡ bytes.now) }
{}

/// A record that may stand under a key has a form.
pub fn fitting_has_form(key: Key, record: Record)
    requires { IsTrue (fits_key key «record») }
    ensures { HasForm «record» }
{}
