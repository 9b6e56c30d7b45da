ghost use Rattle.std.specs.Prelude.{◌≡◌, ◌≤◌, length, take};
ghost use Rattle.http_head.specs.Fields.{has_pair};
ghost use Rattle.http_head.specs.Parts.{AreFieldsOf, IsHeadOf};
ghost use Rattle.http_head.specs.Reading.{reading};

use crate::pieces::cookies;
use crate::read::{FIELD_LINES, HttpHead, spans_of};
use httparse::spans::{EMPTY_HEADER_SPAN, HeaderSpan};

/// Where the fields of a head stand in its bytes.
#[derive(Clone, Copy)]
pub struct Fields {
    spans: [HeaderSpan; FIELD_LINES],
    count: usize,
}

impl Fields {
    /// Where the fields stand, in order.
    pub(crate) fn spans(&self) -> &[HeaderSpan]
        requires { self.now.count ≤ length self.now.spans }
        ensures { result.now ≡ take self.now.count self.now.spans }
    {
        &self.spans[..self.count]
    }
}

/// Whether a Cookie field of the head that was read from these bytes has the pair: each field's value is cut at `;`, and
/// a piece without the spaces and tabs around it is the pair. It takes no memory.
pub fn has_cookie(bytes: &[u8], head: &HttpHead, pair: &[u8]) -> bool
    requires { IsHeadOf bytes.now head.now }
    ensures { result ≡ has_pair (reading bytes.now) pair.now }
{
    has_cookie_in(bytes, &fields_of(bytes, head), pair)
}

/// The same of the head's fields, which were found before: whoever asks for many pairs finds them once. It takes no memory.
pub fn has_cookie_in(bytes: &[u8], fields: &Fields, pair: &[u8]) -> bool
    requires { AreFieldsOf bytes.now fields.now }
    ensures { result ≡ has_pair (reading bytes.now) pair.now }
{
    let mut left = cookies(bytes, fields);
    while let Some(piece) = left.next() {
        if piece == pair {
            return true;
        }
    }
    false
}

/// Where the fields of the head that was read from these bytes stand. It takes no memory.
pub fn fields_of(bytes: &[u8], head: &HttpHead) -> Fields
    requires { IsHeadOf bytes.now head.now }
    ensures { AreFieldsOf bytes.now result }
{
    let _ = head;
    let mut spans = [EMPTY_HEADER_SPAN; FIELD_LINES];
    match spans_of(bytes, &mut spans) {
        Some(found) => Fields {
            spans,
            count: found.headers,
        },
        None => unreachable!(),
    }
}
