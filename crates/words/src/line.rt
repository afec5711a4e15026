// Cuts a line into words that borrow it, and reads the words after the first.
ghost use Rattle.std.specs.Prelude.{◌≡◌, ◌<◌, ◌≤◌, [], ◌∷◌, length, IfOk};
ghost use Rattle.std.specs.Option.{option_map};
ghost use Rattle.std.specs.Result.{result_map_both};
ghost use Rattle.words.specs.Forms.{made_by, contents_row};
ghost use Rattle.words.specs.Table.{kinds_of};
ghost use Rattle.words.specs.Words.{cut as cut_at, operands as operands_of};

use super::flaw::Flaw;
use super::kind::Kind;
use super::operand::operand;
use super::table::kinds;
use super::verb::Verb;
use arrayvec::ArrayVec;

// The numbers of a line's operands: no line has more than three.
pub type Operands = ArrayVec<i32, 3>;

// What stands before the first such byte, and what follows it, if there is one.
pub fn cut(bytes: &[u8], byte: u8) -> (&[u8], Option<&[u8]>)
    ensures front { result.0.now ≡ (cut_at byte bytes.now).0 }
    ensures back { option_map (λ x. x.now) result.1 ≡ (cut_at byte bytes.now).1 }
{
    match bytes.iter().position(|x| *x == byte) {
        Some(at) => (&bytes[..at], Some(&bytes[at + 1..])),
        None => (bytes, None),
    }
}

// The numbers of words of these kinds, from what follows the space after the word before them. A word of the wrong form
// goes before a number out of range.
fn values(kinds: &[Kind], blocks: u8, rest: Option<&[u8]>) -> Result<Operands, Flaw>
    requires { length kinds.now ≤ 3 }
    ensures reads { result_map_both (λ v. v.items) (λ f. f) result ≡ operands_of blocks kinds.now (option_map (λ x. x.now) rest.entry) }
    ensures many { IfOk result (λ v. length v.items ≡ length kinds.now) }
{
    let mut numbers = Operands::new();
    let mut in_range = Ok(());
    let mut left = rest;
    for kind in kinds {
        let (word, more) = cut(left.ok_or(Flaw::Form)?, b' ');
        // By a match: of the two flaws only a wrong form ends the reading.
        match operand(*kind, blocks, word) {
            Ok(x) => numbers.push(x),
            Err(Flaw::Range) => in_range = Err(Flaw::Range),
            Err(form) => return Err(form),
        }
        left = more;
    }
    if left.is_some() {
        return Err(Flaw::Form);
    }
    in_range?;
    Ok(numbers)
}

// The numbers of a node's operands, in a script of so many blocks.
pub fn operands(verb: Verb, blocks: u8, rest: Option<&[u8]>) -> Result<Operands, Flaw>
    ensures reads { result_map_both (λ v. v.items) (λ f. f) result ≡ operands_of blocks (kinds_of verb) (option_map (λ x. x.now) rest.entry) }
    ensures many { IfOk result (λ v. length v.items ≡ length (kinds_of verb)) }
{
    values(kinds(verb), blocks, rest)
}

// The one number that follows the first word of a line, as what a header or a contents line makes of it.
pub fn one_number(kind: Kind, rest: Option<&[u8]>) -> Result<u32, Flaw>
    ensures { result ≡ made_by (contents_row 0) (operands_of 0 (kind ∷ []) (option_map (λ x. x.now) rest.entry)) }
{
    let numbers = values(&[kind], 0, rest)?;
    Ok(numbers[0].unsigned_abs())
}
