// Puts words onto a page, each after what stands there already.
//
// Every function answers an error where there is no room.
ghost use Rattle.std.specs.Prelude.{◌∷◌};
ghost use Rattle.std.specs.Fmt.{signed_decimal};
ghost use Rattle.words.specs.Words.{spell, spaced};
ghost use Rattle.writer.specs.Wrote.{Wrote};

use arrayvec::{ArrayVec, CapacityError};
use script::limits::MOST_BYTES;
use words::decimal::push_number;
use words::kind::Kind;

// A page that every text fits onto.
pub(crate) type Page = ArrayVec<u8, MOST_BYTES>;

// A letter and a number.
pub(crate) fn put_lettered(page: &mut Page, letter: u8, value: i32) -> Result<(), CapacityError>
    ensures { Wrote result page.old.items (letter ∷ signed_decimal value) page.new.items }
{
    page.try_extend_from_slice(&[letter])?;
    push_number(page, value)
}

// A space, a letter and a number. Most words of a text are such, with a digit or two: these go onto the page at once.
#[tactic(auto, using(std::proofs::lemmas::Fmt::decimal_digit, std::proofs::lemmas::Fmt::decimal_step))]
fn put_lettered_operand(page: &mut Page, letter: u8, value: i32) -> Result<(), CapacityError>
    ensures { Wrote result page.old.items (32 ∷ (letter ∷ signed_decimal value)) page.new.items }
{
    if let Ok(small) = u8::try_from(value) {
        if small < 10 {
            return page.try_extend_from_slice(&[b' ', letter, b'0' + small]);
        }
        if small < 100 {
            return page.try_extend_from_slice(&[
                b' ',
                letter,
                b'0' + small / 10,
                b'0' + small % 10,
            ]);
        }
    }
    page.try_extend_from_slice(b" ")?;
    put_lettered(page, letter, value)
}

// A space and a word.
fn put_operand(page: &mut Page, kind: Kind, value: i32) -> Result<(), CapacityError>
    ensures { Wrote result page.old.items (32 ∷ spell kind value) page.new.items }
{
    match kind {
        Kind::RegisterWord => put_lettered_operand(page, b'r', value),
        Kind::BlockWord => put_lettered_operand(page, b'b', value),
        Kind::SlotWord | Kind::NumberWord | Kind::SizeWord | Kind::CountWord => {
            page.try_extend_from_slice(b" ")?;
            push_number(page, value)
        }
    }
}

// Words of these kinds, each after a space. Where one list is longer, what is left of it is not written.
pub(crate) fn put_operands(
    page: &mut Page,
    kinds: &[Kind],
    values: &[i32],
) -> Result<(), CapacityError>
    ensures { Wrote result page.old.items (spaced kinds.now values.now) page.new.items }
{
    for (kind, value) in kinds.iter().zip(values) {
        put_operand(page, *kind, *value)?;
    }
    Ok(())
}
