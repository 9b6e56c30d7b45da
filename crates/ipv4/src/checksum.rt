ghost use Rattle.std.specs.Prelude.{◌≡◌, ◌≤◌, ◌<◌, ◌+◌, ◌%◌, ◌^◌, ℕ, length, sum};
ghost use Rattle.ipv4.specs.Checksum.{words, ones, checksum, blanked};

/// What a total is in 16 bits of one's complement.
fn folded(total: u64) -> u16
    ensures { result ≡ ones total }
{
    if total == 0 {
        0
    } else {
        ((total - 1) % 0xffff + 1) as u16
    }
}

/// The one's complement sum of two numbers of 64 bits: a carry out of the highest bit is added at the lowest. In 16 bits
/// it is what their sum is, since 2^64 is 1 there.
fn add_around(total: u64, more: u64) -> u64
    ensures { (rest : ℕ) → ones (result + rest) ≡ ones (total + more + rest) }
{
    let (wrapped, carried) = total.overflowing_add(more);
    if carried { wrapped + 1 } else { wrapped }
}

/// So many bytes are summed before a carry is added at the lowest bit.
const PART: usize = 1 << 16;

/// A number that is the sum of the words of a part, in 16 bits of one's complement: four bytes a turn, without a carry, so
/// that several turns are made as one.
fn part_words(bytes: &[u8]) -> u64
    requires { length bytes.now ≤ 2 ^ 16 }
    ensures { (more : ℕ) → ones (result + more) ≡ ones (sum (words bytes.now) + more) }
{
    let mut total = 0;
    let mut rest = bytes;
    while let [a, b, c, d, after @ ..] = rest {
        total += u32::from_be_bytes([*a, *b, *c, *d]) as u64;
        rest = after;
    }
    total + few_words(rest)
}

/// The sum of the words of fewer than four bytes.
fn few_words(bytes: &[u8]) -> u64
    requires { length bytes.now < 4 }
    ensures sum { result ≡ sum (words bytes.now) }
    ensures few { result < 2 ^ 18 }
{
    let mut total = 0;
    let mut rest = bytes;
    while let [high, low, after @ ..] = rest {
        total += u16::from_be_bytes([*high, *low]) as u64;
        rest = after;
    }
    match rest {
        [last, ..] => total + u16::from_be_bytes([*last, 0]) as u64,
        [] => total,
    }
}

/// The one's complement sum of `total` and the 16-bit words of the bytes, so that a sum can be taken part by part where
/// each part but the last has an even number of bytes (RFC 1071, 2).
pub fn add_words(total: u16, bytes: &[u8]) -> u16
    ensures { result ≡ ones (total + sum (words bytes.now)) }
{
    let mut wide = total as u64;
    let mut rest = bytes;
    while rest.len() > PART {
        let (part, after) = rest.split_at(PART);
        wide = add_around(wide, part_words(part));
        rest = after;
    }
    folded(add_around(wide, part_words(rest)))
}

/// The same where the two bytes from the even place `i` count as zero, as the checksum's own field does.
#[tactic(auto, using(crate::proofs::Ones::blanks))]
pub fn add_words_blanked(total: u16, bytes: &[u8], i: usize) -> u16
    requires even { i % 2 ≡ 0 }
    requires inside { i + 2 ≤ length bytes.now }
    ensures { result ≡ ones (total + sum (words (blanked i bytes.now))) }
{
    add_words(add_words(total, &bytes[..i]), &bytes[i + 2..])
}

/// The Internet checksum of the bytes: the one's complement of the one's complement sum of their 16-bit words, an odd
/// last byte being padded on the right with zero (RFC 1071, 1).
pub fn sum(bytes: &[u8]) -> u16
    ensures { result ≡ checksum bytes.now }
{
    0xffff - add_words(0, bytes)
}
