// Reads numbers of any size.
ghost use Rattle.std.specs.Prelude.{◌≡◌, ◌^◌, ◌≤◌, min, if◌then◌else◌, Some, None};
ghost use Rattle.std.specs.Str.{all_ascii_digits};
ghost use Rattle.words.specs.Numbers.{plain, value, unsigned_word, minus_word, signed_word};
ghost use Rattle.words.specs.Words.{between, checked, from_to, word32};

use super::flaw::Flaw;
use std::ops::Range;

// Past every range: a number that is larger is read as this one.
const FAR: u64 = 1 << 32;

// How many numbers of 32 bits are not negative.
const HALF: u64 = 1 << 31;

// The number that digits write, with leading zeros or without, or `FAR` if it is more. Digit by digit: std's `parse`
// refuses a number past a u64, which here is `FAR`, as it does a byte that is no digit.
fn scan(digits: &[u8]) -> Option<u64>
    ensures { result ≡ (if all_ascii_digits digits.now then Some (min (value digits.now) (2 ^ 32)) else None) }
{
    let mut n = 0;
    for d in digits {
        if !d.is_ascii_digit() {
            return None;
        }
        n = (n * 10 + u64::from(*d - b'0')).min(FAR);
    }
    Some(n)
}

// The same of digits with no leading zero.
fn number(digits: &[u8]) -> Option<u64>
    ensures { result ≡ (if plain digits.now then Some (min (value digits.now) (2 ^ 32)) else None) }
{
    match digits {
        [] | [b'0', _, ..] => None,
        _ => scan(digits),
    }
}

// A number in this range, or what is wrong with it.
fn within(number: Option<u64>, range: Range<u64>) -> Result<u64, Flaw>
    ensures { result ≡ checked (between range.start range.end) number }
{
    let n = number.ok_or(Flaw::Form)?;
    if range.contains(&n) {
        Ok(n)
    } else {
        Err(Flaw::Range)
    }
}

// A number without a sign.
pub(crate) fn unsigned(digits: &[u8], range: Range<u64>) -> Result<i32, Flaw>
    requires { range.end ≤ 2 ^ 31 }
    ensures { result ≡ checked (from_to range.start range.end) (unsigned_word digits.now) }
{
    let n = within(number(digits), range)?;
    // `as`: i32 has no From<u64>, and a try_from would make an error that can't come.
    Ok(n as i32)
}

// What follows a minus sign. There is no -0.
fn minus(digits: &[u8]) -> Result<i32, Flaw>
    ensures { result ≡ checked word32 (minus_word digits.now) }
{
    let size = number(digits).filter(|n| *n != 0);
    let n = within(size, 0..HALF + 1)?;
    // `as`, twice for the same reason. The sign is put on as an i64, since 2^31 is no i32 and -2^31 is one.
    Ok((-(n as i64)) as i32)
}

// A number of 32 bits, with a minus sign or without.
pub fn signed(word: &[u8]) -> Result<i32, Flaw>
    ensures { result ≡ checked word32 (signed_word word.now) }
{
    match word {
        [b'-', digits @ ..] => minus(digits),
        _ => unsigned(word, 0..HALF),
    }
}
