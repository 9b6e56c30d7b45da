ghost use Rattle.std.specs.Prelude.{◌≡◌, ℕ, ◌==◌, ◌∷◌, ◌++◌, [], All, List, length, map, reverse, IfSome, IfNone, position};
ghost use Rattle.std.specs.List.{list_any};
ghost use Rattle.std.specs.Str.{bytes_eq};
ghost use Rattle.httparse.specs.Ascii.{semicolon};
ghost use Rattle.httparse.specs.Grammar.{skip_ows, trim_ows};
ghost use Rattle.httparse.specs.Spans.{IsHeaderWithin, header_bytes};
ghost use Rattle.http_head.specs.Fields.{cookies_in, cookies_of, has_pair, pieces_left, pieces_of};
ghost use Rattle.http_head.specs.Parts.{AreFieldsOf};
ghost use Rattle.http_head.specs.Reading.{reading};

use crate::cookie::Fields;
use crate::read::is_named;
use httparse::spans::HeaderSpan;
use std::marker::Model;

/// The pieces of a head's Cookie fields that have not been handed out yet, each without the spaces and tabs around it.
/// Contracts see them as a list.
#[derive(Drop)]
pub struct Pieces<'a> {
    bytes: &'a [u8],
    /// The fields behind the one that is being cut.
    fields: &'a [HeaderSpan],
    /// What is left of the value that is being cut.
    value: Option<&'a [u8]>,
}

impl<'a> Model for Pieces<'a> {
    ghost use Rattle.std.specs.Prelude.{ℕ, List, All, ◌++◌, length, map};
    ghost use Rattle.httparse.specs.Spans.{IsHeaderWithin, header_bytes};
    ghost use Rattle.http_head.specs.Fields.{cookies_in, pieces_left};

    ghost Value = { List (List ℕ) };

    ghost view = { λ p. pieces_left p.value ++ cookies_in (map (header_bytes p.bytes.now) p.fields.now) };

    ghost invariant = { λ p. All (IsHeaderWithin (length p.bytes.now)) p.fields.now };
}

/// The pieces of the Cookie fields among these fields of the head, in order: each value is cut at `;`. A pair is a
/// cookie of the head exactly where it is one of them. It takes no memory.
pub fn cookies<'a>(bytes: &'a [u8], fields: &'a Fields) -> Pieces<'a>
    requires { AreFieldsOf bytes.now fields.now }
    ensures all { result ≡ cookies_of (reading bytes.now) }
    ensures pairs { (pair : List ℕ) → has_pair (reading bytes.now) pair ≡ list_any (λ piece. bytes_eq piece pair) result }
{
    Pieces {
        bytes,
        fields: fields.spans(),
        value: None,
    }
}

impl<'a> Pieces<'a> {
    /// The next piece, None exactly where none is left. It takes no memory.
    pub fn next(&mut self) -> Option<&'a [u8]>
        ensures some { IfSome result (λ piece. self.old ≡ piece.now ∷ self.new) }
        ensures none { IfNone result (self.old ≡ []) }
    {
        let value = match self.value {
            Some(value) => value,
            None => {
                let (value, behind) = next_cookie(self.bytes, self.fields)?;
                self.fields = behind;
                value
            }
        };
        let (piece, rest) = cut(value);
        self.value = rest;
        Some(trimmed(piece))
    }
}

/// The value of the first Cookie field and the fields behind it.
fn next_cookie<'a>(
    bytes: &'a [u8],
    fields: &'a [HeaderSpan],
) -> Option<(&'a [u8], &'a [HeaderSpan])>
    requires { All (IsHeaderWithin (length bytes.now)) fields.now }
    ensures some { IfSome result (λ r. cookies_in (map (header_bytes bytes.now) fields.now) ≡ pieces_of r.0.now ++ cookies_in (map (header_bytes bytes.now) r.1.now)) }
    ensures within { IfSome result (λ r. All (IsHeaderWithin (length bytes.now)) r.1.now) }
    ensures none { IfNone result (cookies_in (map (header_bytes bytes.now) fields.now) ≡ []) }
{
    let mut rest = fields;
    while let [field, behind @ ..] = rest {
        if is_named(bytes, *field, b"cookie") {
            return Some((field.value.of(bytes), behind));
        }
        rest = behind;
    }
    None
}

/// The value up to its first `;` and what stands behind that, None where it has none.
fn cut(value: &[u8]) -> (&[u8], Option<&[u8]>)
    ensures { pieces_of value.now ≡ trim_ows result.0.now ∷ pieces_left result.1 }
{
    match first_semicolon(value) {
        Some(end) => (&value[..end], Some(&value[end + 1..])),
        None => (value, None),
    }
}

/// The place of the first `;`.
fn first_semicolon(bytes: &[u8]) -> Option<usize>
    ensures { result ≡ position (λ b. b == semicolon) bytes.now }
{
    bytes.iter().position(|b| *b == b';')
}

/// The bytes without the spaces and tabs at both ends.
#[tactic(auto, unfolding(httparse::specs::Grammar::trim_ows))]
fn trimmed(bytes: &[u8]) -> &[u8]
    ensures { result.now ≡ trim_ows bytes.now }
{
    without_back(without_front(bytes))
}

/// The bytes without the spaces and tabs at the front.
fn without_front(bytes: &[u8]) -> &[u8]
    ensures { result.now ≡ skip_ows bytes.now }
{
    let mut rest = bytes;
    while let [b' ' | b'\t', after @ ..] = rest {
        rest = after;
    }
    rest
}

/// The bytes without the spaces and tabs at the back.
fn without_back(bytes: &[u8]) -> &[u8]
    ensures { result.now ≡ reverse (skip_ows (reverse bytes.now)) }
{
    let mut rest = bytes;
    while let [before @ .., b' ' | b'\t'] = rest {
        rest = before;
    }
    rest
}
