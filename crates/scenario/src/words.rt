// Words that are numbers or hexadecimal digits.
ghost use Rattle.std.specs.Prelude.{◌≡◌, ◌+◌, ◌*◌, ◌^◌, ◌<◌, ◌≤◌, ◌++◌, length, take, IfSome, IfOk, vec_items, string_bytes, string_len, string_capacity, OnOk, IsOk};
ghost use Rattle.std.specs.Option.{option_map};
ghost use Rattle.scenario.specs.Hex.{pair, bytes_of, digits_of, printed, ReadsBack};
ghost use Rattle.scenario.specs.Numbers.{digit_in, appended, numeral, in_u64, work_of, IsConverted};

use std::alloc::{AllocError, Global};
use std::fmt;

const DECIMAL: u32 = 10;

const HEXADECIMAL: u32 = 16;

const WORK_DIGITS: usize = 16;

// The two lower-case digits of each byte, in order.
const PAIRS: &str = "\
    000102030405060708090a0b0c0d0e0f\
    101112131415161718191a1b1c1d1e1f\
    202122232425262728292a2b2c2d2e2f\
    303132333435363738393a3b3c3d3e3f\
    404142434445464748494a4b4c4d4e4f\
    505152535455565758595a5b5c5d5e5f\
    606162636465666768696a6b6c6d6e6f\
    707172737475767778797a7b7c7d7e7f\
    808182838485868788898a8b8c8d8e8f\
    909192939495969798999a9b9c9d9e9f\
    a0a1a2a3a4a5a6a7a8a9aaabacadaeaf\
    b0b1b2b3b4b5b6b7b8b9babbbcbdbebf\
    c0c1c2c3c4c5c6c7c8c9cacbcccdcecf\
    d0d1d2d3d4d5d6d7d8d9dadbdcdddedf\
    e0e1e2e3e4e5e6e7e8e9eaebecedeeef\
    f0f1f2f3f4f5f6f7f8f9fafbfcfdfeff";

// What a digit of a base stands for, in either case.
fn digit(b: u8, base: u32) -> Option<u32>
    requires at_least { 2 ≤ base }
    requires at_most { base ≤ 16 }
    ensures value { result ≡ digit_in base b }
    ensures within { IfSome result (λ d. d < base) }
{
    char::from(b).to_digit(base)
}

// A number with one more digit behind it.
fn append(value: u64, b: u8, base: u32) -> Option<u64>
    requires at_least { 2 ≤ base }
    requires at_most { base ≤ 16 }
    ensures value { result ≡ in_u64 (appended base value b) }
    ensures within { IfSome result (λ n. n < 2 ^ 64) }
{
    let digit = digit(b, base)?;
    value
        .checked_mul(u64::from(base))?
        .checked_add(u64::from(digit))
}

// The number that a word writes in a base.
fn number(word: &[u8], base: u32) -> Option<u64>
    requires at_least { 2 ≤ base }
    requires at_most { base ≤ 16 }
    ensures { result ≡ in_u64 (numeral base word.now) }
{
    if word.is_empty() {
        return None;
    }
    let mut value = 0;
    for b in word {
        value = append(value, *b, base)?;
    }
    Some(value)
}

// The number that a word writes in decimal digits, if it is one of the type.
#[tactic(auto, using(crate::proofs::Conversions::converted))]
pub fn decimal<T: TryFrom<u64>>(word: &[u8]) -> Option<T>
where
    T::Error: Drop,
    ensures { IsConverted T.try_from_gives (in_u64 (numeral 10 word.now)) result }
{
    T::try_from(number(word, DECIMAL)?).ok()
}

// The work that 16 hexadecimal digits write.
pub fn hexadecimal_u64(word: &[u8]) -> Option<u64>
    ensures { result ≡ work_of word.now }
{
    if word.len() != WORK_DIGITS {
        return None;
    }
    number(word, HEXADECIMAL)
}

// The byte that two digits write.
fn byte(high: u8, low: u8) -> Option<u8>
    ensures { result ≡ pair high low }
{
    Some((digit(high, HEXADECIMAL)? * HEXADECIMAL + digit(low, HEXADECIMAL)?) as u8)
}

// The bytes that pairs of hexadecimal digits write.
pub fn bytes(heap: Global, word: &[u8]) -> Result<Option<Vec<u8>>, AllocError>
    ensures { IfOk result (λ o. option_map vec_items o ≡ bytes_of word.now) }
{
    let (pairs, []) = word.as_chunks::<2>() else {
        return Ok(None);
    };
    let mut bytes = Vec::with_capacity(heap, pairs.len())?;
    for [high, low] in pairs {
        let Some(byte) = byte(*high, *low) else {
            return Ok(None);
        };
        bytes.push(byte)?;
    }
    Ok(Some(bytes))
}

// The digits that are printed for a byte.
fn printed_digits(b: u8) -> &'static str
    ensures { result.now ≡ digits_of b }
{
    let at = 2 * usize::from(b);
    &PAIRS[at..at + 2]
}

// `write!` was tried: it promises nothing of a text with room, so the digits are pushed.
fn print_byte(out: &mut String, b: u8) -> Result<(), AllocError>
    ensures prints { OnOk result (string_bytes out.new ≡ string_bytes out.old ++ digits_of b) }
    ensures keeps { take (length (string_bytes out.old)) (string_bytes out.new) ≡ string_bytes out.old }
    ensures len { OnOk result (string_len out.new ≡ string_len out.old + 2) }
    ensures capacity { string_capacity out.old ≤ string_capacity out.new }
    ensures succeeds { string_len out.old + 2 ≤ string_capacity out.old → IsOk result }
{
    out.push_str(printed_digits(b))
}

// Prints bytes as hexadecimal digits. It fails only where the text lacks room, and the text before stays.
#[tactic(auto, using(crate::proofs::Pairs::reads_back))]
pub fn print(out: &mut String, bytes: &[u8]) -> fmt::Result
    ensures prints { OnOk result (string_bytes out.new ≡ string_bytes out.old ++ printed bytes.now) }
    ensures keeps { take (length (string_bytes out.old)) (string_bytes out.new) ≡ string_bytes out.old }
    ensures succeeds { string_len out.old + 2 * length bytes.now ≤ string_capacity out.old → IsOk result }
    ensures reads_back { ReadsBack bytes.now }
{
    for b in bytes {
        print_byte(out, *b)?;
    }
    Ok(())
}
