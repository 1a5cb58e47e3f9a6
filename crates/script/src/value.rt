//! What a word is read as: a number, a data page, bytes, or a command.

ghost use Rattle.std.specs.Prelude.{◌≡◌, ◌<◌, ◌≤◌, IfSome, length};
ghost use Rattle.script.specs.Words.{Reads, with_digit, digits_on, number_in, ranged_in, page_in, option_in, digit_in, byte_in, bytes_in, op_in};

use nvm_values::Op;

#[inline(always)]
fn with_digit(n: u64, digit: u8) -> Option<u64>
    ensures { result ≡ with_digit n digit }
{
    match digit {
        b'0'..=b'9' => n.checked_mul(10)?.checked_add(u64::from(digit - b'0')),
        _ => None,
    }
}

#[tactic(auto, unfolding(crate::specs::Words::digits_on))]
#[inline(always)]
fn digits(word: &[u8]) -> Option<u64>
    ensures { result ≡ digits_on 0 word.now }
{
    let mut n = 0;
    let mut rest = word;
    while let [digit, after @ ..] = rest {
        n = with_digit(n, *digit)?;
        rest = after;
    }
    Some(n)
}

/// A decimal number of 64 bits.
#[inline(always)]
pub fn number(word: &[u8]) -> Option<u64>
    ensures { result ≡ number_in word.now }
{
    match word {
        [] | [b'0', _, ..] => None,
        _ => digits(word),
    }
}

/// A number that lies between two others.
#[inline(always)]
pub fn ranged(word: &[u8], low: u64, high: u64) -> Option<u64>
    ensures value { result ≡ ranged_in low high word.now }
    ensures low { IfSome result (λ n. low ≤ n) }
    ensures high { IfSome result (λ n. n ≤ high) }
{
    let n = number(word)?;
    if low <= n && n <= high { Some(n) } else { None }
}

/// A data page of a lane that has so many.
#[inline(always)]
pub fn page_in(word: &[u8], pages: u16) -> Option<u16>
    ensures { result ≡ page_in pages word.now }
{
    let n = number(word)?;
    if n < u64::from(pages) {
        Some(n as u16)
    } else {
        None
    }
}

/// A data page, or `-` for none.
#[inline(always)]
pub fn option_in(word: &[u8], pages: u16) -> Option<Option<u16>>
    ensures { result ≡ option_in pages word.now }
{
    if word == b"-".as_slice() {
        return Some(None);
    }
    let page = page_in(word, pages)?;
    Some(Some(page))
}

/// The value of a digit in lower case.
fn digit(code: u8) -> Option<u8>
    ensures value { result ≡ digit_in code }
    ensures high { IfSome result (λ n. n < 16) }
{
    match code {
        b'0'..=b'9' => Some(code - b'0'),
        b'a'..=b'f' => Some(code - b'a' + 10),
        _ => None,
    }
}

fn byte(high: u8, low: u8) -> Option<u8>
    ensures { result ≡ byte_in high low }
{
    let high = digit(high)?;
    let low = digit(low)?;
    Some(high * 16 + low)
}

/// Fills `out` with the bytes of a word that has two digits for each of them.
pub fn bytes(word: &[u8], out: &mut [u8]) -> Option<()>
    requires { length out.old ≤ 64 }
    ensures { Reads (λ u. out.new) result (bytes_in (length out.old) word.now) }
{
    if word.len() != 2 * out.len() {
        return None;
    }
    let mut rest = word;
    for i in 0..out.len() {
        let [high, low, after @ ..] = rest else {
            return None;
        };
        let Some(byte) = byte(*high, *low) else {
            return None;
        };
        out[i] = byte;
        rest = after;
    }
    Some(())
}

/// A command's word.
pub fn op(word: &[u8]) -> Option<Op>
    ensures { result ≡ op_in word.now }
{
    if word == b"flush".as_slice() {
        return Some(Op::Flush);
    }
    if word == b"write".as_slice() {
        return Some(Op::Write);
    }
    if word == b"read".as_slice() {
        return Some(Op::Read);
    }
    if word == b"compare".as_slice() {
        return Some(Op::Compare);
    }
    if word == b"zeroes".as_slice() {
        return Some(Op::WriteZeroes);
    }
    if word == b"verify".as_slice() {
        return Some(Op::Verify);
    }
    None
}
