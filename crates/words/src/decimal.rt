// Writes numbers in base ten.
ghost use Rattle.std.specs.Fmt.{signed_decimal};
ghost use Rattle.words.specs.Placed.{Placed};
ghost use Rattle.words.specs.Pushed.{Pushed};

use arrayvec::{ArrayVec, CapacityError};
use itoa::Buffer;

// Writes a number from `at` on and answers the place after it, or leaves all bytes as they were where it does not fit.
// `out` and `at` side by side: this is for bytes that a caller lends, and a page serves only those who append.
pub fn put_number(out: &mut [u8], at: usize, value: i32) -> Option<usize>
    ensures { Placed result out.old at (signed_decimal value) out.new }
{
    let room = out.len().checked_sub(at)?;
    let mut buffer = Buffer::new();
    let text = buffer.format(value).as_bytes();
    if text.len() > room {
        return None;
    }
    let end = at + text.len();
    // Not by `get_mut(..)?`: once its borrow is over, no clause says what the other bytes are, and the proof needs that.
    out[at..end].copy_from_slice(text);
    Some(end)
}

// Writes a number after what stands on a page, or leaves the page as it was where it does not fit.
#[tactic(auto, using(std::proofs::lemmas::Fmt::decimal_digit, std::proofs::lemmas::Fmt::decimal_step))]
pub fn push_number<const N: usize>(
    page: &mut ArrayVec<u8, N>,
    value: i32,
) -> Result<(), CapacityError>
    ensures { Pushed N result page.old.items (signed_decimal value) page.new.items }
{
    // Most numbers of a text have a digit or two: these go onto the page without a buffer between.
    if let Ok(small) = u8::try_from(value) {
        if small < 10 {
            return page.try_extend_from_slice(&[b'0' + small]);
        }
        if small < 100 {
            return page.try_extend_from_slice(&[b'0' + small / 10, b'0' + small % 10]);
        }
    }
    let mut buffer = Buffer::new();
    let text = buffer.format(value);
    page.try_extend_from_slice(text.as_bytes())
}
