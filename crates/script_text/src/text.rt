ghost use Rattle.std.specs.Prelude.{◌≡◌, ◌<◌, ◌∷◌, ◌==◌, [], length, position, IfSome, IfNone};
ghost use Rattle.std.specs.Str.Lines.{lines as lines_in, strip_carriage_return};
ghost use Rattle.script_text.specs.Words.{is_skipped as is_skipped_text};

/// Whether the line says nothing: it is empty, or a comment.
pub fn is_skipped(text: &[u8]) -> bool
    ensures { result ≡ is_skipped_text text.now }
{
    matches!(text, [] | [b'#', ..])
}

/// The first line without its end, and what follows that, None exactly where there is no line.
pub fn next_line(bytes: &[u8]) -> Option<(&[u8], &[u8])>
    ensures first { IfSome result (λ r. lines_in bytes.now ≡ r.0.now ∷ lines_in r.1.now) }
    ensures shorter { IfSome result (λ r. length r.1.now < length bytes.now) }
    ensures end { IfNone result (lines_in bytes.now ≡ []) }
{
    match first_line_feed(bytes) {
        Some(end) => Some((without_return(&bytes[..end]), &bytes[end + 1..])),
        None if bytes.is_empty() => None,
        None => Some((bytes, &bytes[bytes.len()..])),
    }
}

/// The place of the first line feed.
fn first_line_feed(bytes: &[u8]) -> Option<usize>
    ensures { result ≡ position (λ b. b == 10) bytes.now }
{
    bytes.iter().position(|b| *b == b'\n')
}

/// The line without the carriage return at its end, if it has one.
fn without_return(line: &[u8]) -> &[u8]
    ensures { result.now ≡ strip_carriage_return line.now }
{
    match line {
        [before @ .., b'\r'] => before,
        _ => line,
    }
}
