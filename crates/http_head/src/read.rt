ghost use Rattle.std.specs.Prelude.{◌≡◌, ℕ, All, IfNone, IfSome, length, map, option_map};
ghost use Rattle.httparse.specs.Spans.{IsHeaderWithin, header_bytes};
ghost use Rattle.http_head.specs.Fields.{first_named, same_name};
ghost use Rattle.http_head.specs.Lines.{lines_of};
ghost use Rattle.http_head.specs.Parts.{IsReading, IsShownBy, IsWithin, part_bytes};
ghost use Rattle.http_head.specs.Reading.{reading, without_head};

use crate::lines::lines_are_over;
use httparse::Status;
use httparse::spans::{EMPTY_HEADER_SPAN, HeaderSpan, RequestSpans, Span, parse_request};

/// The most field lines that a head may have.
pub const FIELD_LINES: usize = 64;

/// The bytes from `start` up to `end`.
#[derive(Clone, Copy, Debug, PartialEq, Eq)]
pub struct Part {
    pub start: usize,
    pub end: usize,
}

/// A request head at the front of bytes: its length, where its target stands as it was written, and the value of its
/// first Host field, None exactly where it has no such field.
#[derive(Clone, Copy, Debug, PartialEq, Eq)]
pub struct HttpHead {
    pub length: usize,
    pub path: Part,
    pub host: Option<Part>,
}

/// What bytes say of a request head.
#[derive(Clone, Copy, Debug, PartialEq, Eq)]
pub enum HeadRead {
    /// No prefix is a head, and its lines are not over.
    Partial,
    /// No prefix is a head, and its empty line has come or a 65th field line has begun.
    Bad,
    /// A prefix is a head of at most 64 field lines.
    Complete(HttpHead),
}

/// What the bytes say of a request head. It takes no memory.
pub fn head(bytes: &[u8]) -> HeadRead
    ensures { IsReading bytes.now result }
{
    let mut fields = [EMPTY_HEADER_SPAN; FIELD_LINES];
    match spans_of(bytes, &mut fields) {
        Some(spans) => HeadRead::Complete(HttpHead {
            length: spans.len,
            path: part_of(spans.path),
            host: value_named(bytes, &fields[..spans.headers], b"host"),
        }),
        None if lines_are_over(bytes) => HeadRead::Bad,
        None => HeadRead::Partial,
    }
}

/// Where the parts of the head stand, None exactly where no prefix of the bytes is a head.
pub(crate) fn spans_of(bytes: &[u8], fields: &mut [HeaderSpan]) -> Option<RequestSpans>
    requires { length fields.old ≡ FIELD_LINES }
    ensures found { IfSome result (IsShownBy bytes.now fields.new) }
    ensures none { IfNone result (reading bytes.now ≡ without_head (lines_of bytes.now)) }
{
    match parse_request(bytes, fields) {
        Ok(Status::Complete(spans)) => Some(spans),
        Ok(Status::Partial) => None,
        Err(_) => None,
    }
}

fn part_of(span: Span) -> Part
    ensures start { result.start ≡ span.start }
    ensures end { result.end ≡ span.end }
{
    Part {
        start: span.start,
        end: span.end,
    }
}

/// Whether the field has that name, but for ASCII case.
pub(crate) fn is_named(bytes: &[u8], field: HeaderSpan, name: &[u8]) -> bool
    requires { IsHeaderWithin (length bytes.now) field }
    ensures { result ≡ same_name (header_bytes bytes.now field).0 name.now }
{
    field.name.of(bytes).eq_ignore_ascii_case(name)
}

/// The value of the first of the fields with that name.
fn value_named(bytes: &[u8], fields: &[HeaderSpan], name: &[u8]) -> Option<Part>
    requires { All (IsHeaderWithin (length bytes.now)) fields.now }
    ensures within { (n : ℕ) → All (IsHeaderWithin n) fields.now → IfSome result (IsWithin n) }
    ensures value { option_map (part_bytes bytes.now) result ≡ first_named name.now (map (header_bytes bytes.now) fields.now) }
{
    for field in fields {
        if is_named(bytes, *field, name) {
            return Some(part_of(field.value));
        }
    }
    None
}
