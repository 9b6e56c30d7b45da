ghost use Rattle.std.specs.Prelude.{◌≡◌, ◌<◌, ◌∷◌, ◌==◌, [], length, position, IfSome, IfNone, MatchOption};
ghost use Rattle.httparse.specs.Ascii.{line_feed};
ghost use Rattle.http_head.specs.Lines.{lines_of, is_blank as is_blank_line, after_request_line};
ghost use Rattle.http_head.specs.Reading.{are_over, fields_over};

use crate::read::FIELD_LINES;

/// Whether the line has nothing, or a carriage return alone.
fn is_blank(line: &[u8]) -> bool
    ensures { result ≡ is_blank_line line.now }
{
    matches!(line, [] | [b'\r'])
}

/// The place of the first line feed.
fn first_line_feed(bytes: &[u8]) -> Option<usize>
    ensures { result ≡ position (λ b. b == line_feed) bytes.now }
{
    bytes.iter().position(|b| *b == b'\n')
}

/// The first line and what follows its line feed, None exactly where there is no line feed.
fn next_line(bytes: &[u8]) -> Option<(&[u8], &[u8])>
    ensures first { IfSome result (λ r. lines_of bytes.now ≡ r.0.now ∷ lines_of r.1.now) }
    ensures shorter { IfSome result (λ r. length r.1.now < length bytes.now) }
    ensures last { IfNone result (lines_of bytes.now ≡ bytes.now ∷ []) }
{
    let Some(end) = first_line_feed(bytes) else {
        return None;
    };
    Some((&bytes[..end], &bytes[end + 1..]))
}

/// What stands after the request line, which is the first line that is not blank, None where that has no line feed yet.
fn after_request(bytes: &[u8]) -> Option<&[u8]>
    ensures { MatchOption result (after_request_line (lines_of bytes.now) ≡ [])
        (λ rest. after_request_line (lines_of bytes.now) ≡ lines_of rest.now) }
{
    let mut rest = bytes;
    loop {
        let (line, after) = next_line(rest)?;
        if !is_blank(line) {
            return Some(after);
        }
        rest = after;
    }
}

/// Whether the head's lines are over: its empty line has come, or one field line too many has begun.
pub fn lines_are_over(bytes: &[u8]) -> bool
    ensures { result ≡ are_over (lines_of bytes.now) }
{
    match after_request(bytes) {
        Some(fields) => fields_are_over(fields),
        None => false,
    }
}

/// The same for what stands after the request line.
fn fields_are_over(fields: &[u8]) -> bool
    ensures { result ≡ fields_over (lines_of fields.now) }
{
    let mut rest = fields;
    let mut begun = 0usize;
    while let Some((line, after)) = next_line(rest) {
        if is_blank(line) {
            return true;
        }
        begun += 1;
        rest = after;
    }
    if !is_blank(rest) {
        begun += 1;
    }
    begun > FIELD_LINES
}
