ghost use Rattle.std.specs.Prelude.{◌≡◌, ◌&&◌, ◌∷◌, [], ℕ, List, codes, map, option_map, IfOk};
ghost use Rattle.std.specs.Char.{is_ascii_digit};
ghost use Rattle.std.specs.List.{list_all};
ghost use Rattle.std.specs.Option.{option_and_then};
ghost use Rattle.std.specs.Str.{bytes_eq};
ghost use Rattle.script_text.specs.Words.{cut, cut_line, of_numbers, is_number as is_number_word, line_of, number_from, number_of, words_of};

use crate::line::Line;
use std::alloc::{AllocError, Global};

/// The line of this text, None exactly where it has none of the four forms. A number that is too large for its field
/// stands there as the largest of the field, which is out of every range. The one error is want of memory.
pub fn line(alloc: Global, text: &[u8]) -> Result<Option<Line>, AllocError>
    ensures { IfOk result (λ line. line ≡ option_map cut_line (line_of (words_of text.now))) }
{
    let words = words(alloc, text)?;
    Ok(line_of_words(&words))
}

/// The words of the text.
fn words(alloc: Global, text: &[u8]) -> Result<Vec<&[u8]>, AllocError>
    ensures { IfOk result (λ words. map (λ w. w.now) words.items ≡ words_of text.now) }
{
    text.split(|b| *b == b' ').collect(alloc)
}

/// The line of these words.
fn line_of_words(words: &[&[u8]]) -> Option<Line>
    ensures { result ≡ option_map cut_line (line_of (map (λ w. w.now) words.now)) }
{
    match words {
        [verb, item, instance] => give(verb, item, instance),
        [verb, number, at, item] => change(verb, number, at, item),
        [verb, instance, at, item, after, steps] => {
            if is_crash(verb, at, after) {
                crash(instance, item, steps)
            } else {
                None
            }
        }
        _ => None,
    }
}

/// `give N I`
fn give(verb: &[u8], item: &[u8], instance: &[u8]) -> Option<Line>
    ensures { result ≡ option_map cut_line (line_of (verb.now ∷ item.now ∷ instance.now ∷ [])) }
{
    if !is(verb, b"give") {
        return None;
    }
    Some(Line::Give {
        item: number(item)?,
        instance: short_number(instance)?,
    })
}

/// `back I at N` and `fail R at N`
fn change(verb: &[u8], number: &[u8], at: &[u8], item: &[u8]) -> Option<Line>
    ensures { result ≡ option_map cut_line (line_of (verb.now ∷ number.now ∷ at.now ∷ item.now ∷ [])) }
{
    if !is(at, b"at") {
        None
    } else if is(verb, b"back") {
        back(number, item)
    } else if is(verb, b"fail") {
        fail(number, item)
    } else {
        None
    }
}

/// `back I at N`, from I and N.
fn back(instance: &[u8], item: &[u8]) -> Option<Line>
    ensures { result ≡ option_map cut_line (of_numbers Line.Back instance.now item.now) }
{
    Some(Line::Back {
        instance: short_number(instance)?,
        item: number(item)?,
    })
}

/// `fail R at N`, from R and N.
fn fail(replica: &[u8], item: &[u8]) -> Option<Line>
    ensures { result ≡ option_map cut_line (of_numbers Line.Fail replica.now item.now) }
{
    Some(Line::Fail {
        replica: byte_number(replica)?,
        item: number(item)?,
    })
}

/// Whether the words that are no number are those of `crash I at N after M`.
fn is_crash(verb: &[u8], at: &[u8], after: &[u8]) -> bool
    ensures { result ≡ (bytes_eq verb.now (codes "crash") && bytes_eq at.now (codes "at") && bytes_eq after.now (codes "after")) }
{
    is(verb, b"crash") && is(at, b"at") && is(after, b"after")
}

/// `crash I at N after M`, from I, N and M.
fn crash(instance: &[u8], item: &[u8], steps: &[u8]) -> Option<Line>
    ensures { result ≡ option_map cut_line
        (option_and_then (λ m. of_numbers (λ i n. Line.Crash i n m) instance.now item.now) (number_of steps.now)) }
{
    Some(Line::Crash {
        instance: short_number(instance)?,
        item: number(item)?,
        after: short_number(steps)?,
    })
}

/// Whether the word is this one.
fn is(word: &[u8], name: &[u8]) -> bool
    ensures { result ≡ bytes_eq word.now name.now }
{
    word == name
}

/// The number that the word is, in 32 bits.
fn number(word: &[u8]) -> Option<u32>
    ensures { result ≡ option_map (cut 32) (number_of word.now) }
{
    if is_number(word) {
        Some(value(word))
    } else {
        None
    }
}

/// The same in 16 bits.
fn short_number(word: &[u8]) -> Option<u16>
    ensures { result ≡ option_map (cut 16) (number_of word.now) }
{
    let number = number(word)?;
    Some(u16::try_from(number).unwrap_or(u16::MAX))
}

/// The same in 8 bits.
fn byte_number(word: &[u8]) -> Option<u8>
    ensures { result ≡ option_map (cut 8) (number_of word.now) }
{
    let number = number(word)?;
    Some(u8::try_from(number).unwrap_or(u8::MAX))
}

/// Whether the word is decimal digits without a zero in front.
fn is_number(word: &[u8]) -> bool
    ensures { result ≡ is_number_word word.now }
{
    match word {
        [] => false,
        [digit] => digit.is_ascii_digit(),
        [first, _, ..] => are_digits(word) && *first != b'0',
    }
}

/// Whether all bytes are decimal digits.
fn are_digits(word: &[u8]) -> bool
    ensures { result ≡ list_all is_ascii_digit word.now }
{
    word.iter().all(|b| b.is_ascii_digit())
}

/// The number of these digits, cut to 32 bits.
fn value(digits: &[u8]) -> u32
    ensures { result ≡ cut 32 (number_from 0 digits.now) }
{
    let mut value = 0u32;
    for digit in digits {
        let units = u32::from(digit.saturating_sub(b'0'));
        value = value.saturating_mul(10).saturating_add(units);
    }
    value
}
