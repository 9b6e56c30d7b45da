// The words of the command `drive`, and the numbers that they give.
ghost use Rattle.std.specs.Prelude.{◌≡◌, ◌<◌, ◌≤◌, ◌+◌, ◌-◌, ◌*◌, ◌^◌, IfSome, None, is_some};
ghost use Rattle.std.specs.Char.{is_ascii_digit};
ghost use Rattle.std.specs.List.{list_all};
ghost use Rattle.script_text.specs.Words.{is_number, number_from};
ghost use Rattle.yoda_app.specs.DriveWords.{are_drive, drive_numbers, is_between};
ghost use Rattle.yoda_app.specs.Words.{texts};

use crate::words::word_at;
use world_model::{MOST_BYTES, MOST_FLOWS};

/// What `drive` is given: how many flows, how many bytes each stream has, and the number of the run.
#[derive(Clone, Copy)]
pub struct DriveNumbers {
    pub flows: u32,
    pub bytes: u32,
    pub number: u64,
}

// Whether the word is decimal digits without a zero in front.
fn is_number(word: &[u8]) -> bool
    ensures { result ≡ is_number word.now }
{
    match word {
        [] => false,
        [digit] => digit.is_ascii_digit(),
        [first, _, ..] => are_digits(word) && *first != b'0',
    }
}

fn are_digits(word: &[u8]) -> bool
    ensures { result ≡ list_all is_ascii_digit word.now }
{
    word.iter().all(|b| b.is_ascii_digit())
}

// The number with this digit behind it, None exactly where 64 bits cannot tell it.
fn with_digit(number: u64, digit: u8) -> Option<u64>
    ensures number { IfSome result (λ n. n ≡ number * 10 + (digit - 48)) }
    ensures none { result ≡ None → 2 ^ 64 ≤ number * 10 + (digit - 48) }
{
    let units = u64::from(digit.saturating_sub(b'0'));
    number.checked_mul(10)?.checked_add(units)
}

// The number of these digits, None exactly where 64 bits cannot tell it.
fn value(digits: &[u8]) -> Option<u64>
    ensures number { IfSome result (λ n. n ≡ number_from 0 digits.now) }
    ensures none { result ≡ None → 2 ^ 64 ≤ number_from 0 digits.now }
{
    let mut number = 0;
    for digit in digits {
        number = with_digit(number, *digit)?;
    }
    Some(number)
}

// The number that the word is, where it is one from the least to the most.
fn number_between(word: &str, least: u64, most: u64) -> Option<u64>
    ensures is { is_some result ≡ is_between least most word.now }
    ensures number { IfSome result (λ n. n ≡ number_from 0 word.now) }
    ensures least { IfSome result (λ n. least ≤ n) }
    ensures most { IfSome result (λ n. n ≤ most) }
{
    let digits = word.as_bytes();
    if !is_number(digits) {
        return None;
    }
    let number = value(digits)?;
    if least <= number && number <= most {
        Some(number)
    } else {
        None
    }
}

/// The numbers, where the words are those of `drive`.
pub fn drive_numbers(words: &[String]) -> Option<DriveNumbers>
    ensures is_drive { is_some result ≡ are_drive (texts words.now) }
    ensures numbers { IfSome result (λ n. n ≡ drive_numbers (texts words.now)) }
    ensures some { IfSome result (λ n. 0 < n.flows) }
    ensures few { IfSome result (λ n. n.flows ≤ MOST_FLOWS) }
    ensures short { IfSome result (λ n. n.bytes ≤ MOST_BYTES) }
{
    if words.len() != 4 || word_at(words, 0) != "drive" {
        return None;
    }
    Some(DriveNumbers {
        flows: number_between(word_at(words, 1), 1, MOST_FLOWS as u64)? as u32,
        bytes: number_between(word_at(words, 2), 0, MOST_BYTES as u64)? as u32,
        number: number_between(word_at(words, 3), 0, u64::MAX)?,
    })
}
