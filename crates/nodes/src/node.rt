// Reads the lines of the nodes, each without its line feed.
ghost use Rattle.std.specs.Prelude.{◌≡◌, ◌≢◌, ◌%◌, ◌<◌, ◌≤◌, Bool, true, false, length, unsigned_abs, MatchResult};
ghost use Rattle.std.specs.Option.{option_map};
ghost use Rattle.nodes.specs.Nodes.{ends_block, middle_make, last_make};
ghost use Rattle.words.specs.Forms.{register as register_of, slot as slot_of, compute_row, middle_rows, last_rows, line_as};
ghost use Rattle.words.specs.Table.{name_of, kinds_of};
ghost use Rattle.words.specs.Words.{cut as cut_at};
ghost use Rattle.words.specs.declared.flaw.Flaw.TheVariants.{Form};
ghost use Rattle.words.specs.declared.verb.Verb.{Verb as AnyVerb};

use script::limits::{REGISTERS, SLOTS};
use script::node::{Last, Middle, Operation};
use script::register::{Register, Slot};
use words::flaw::Flaw;
use words::line::{Operands, cut, operands};
use words::table::find;
use words::verb::Verb;

// A number that is below `end` where it is read. By `as`: a try_from would make an error that can't come.
fn below(x: i32, end: u32) -> u8
    requires some { 0 < end }
    requires small { end ≤ 256 }
    ensures { result ≡ unsigned_abs x % end }
{
    (x.unsigned_abs() % end) as u8
}

// A register. No `From`: an operand is put into range here, which no other caller should meet, and neither type is this
// crate's. One function of registers and slots would need a trait, which is more than the two lines that it saves.
fn register(x: i32) -> Register
    ensures { result ≡ register_of (unsigned_abs x) }
{
    Register {
        index: below(x, u32::from(REGISTERS)),
    }
}

// A slot. No `From`, for the same reason.
fn slot(x: i32) -> Slot
    ensures { result ≡ slot_of (unsigned_abs x) }
{
    Slot {
        index: below(x, u32::from(SLOTS)),
    }
}

// A block's place in the script. No `From`: it is a remainder, and a plain u8.
fn block(x: i32) -> u8
    ensures { result ≡ unsigned_abs x % 256 }
{
    below(x, 256)
}

// Whether a verb is that of a last node.
fn ends(verb: Verb) -> bool
    ensures { result ≡ ends_block verb }
{
    matches!(verb, Verb::Go | Verb::If | Verb::End)
}

// The arithmetic of three registers.
fn compute(operation: Operation, numbers: &[i32]) -> Middle
    requires { length numbers.now ≡ 3 }
    ensures { result ≡ (compute_row operation).make numbers.now }
{
    match numbers {
        [to, left, right] => Middle::Compute {
            operation,
            to: register(*to),
            left: register(*left),
            right: register(*right),
        },
        _ => unreachable(),
    }
}

// The middle node of a verb with these operands. The verb and its numbers come side by side: a struct of both would be made
// in `middle` and in `last` only to be taken apart here, which is no plainer.
fn middle_of(verb: Verb, numbers: &[i32]) -> Middle
    requires inside { ends_block verb ≡ false }
    requires many { length numbers.now ≡ length (kinds_of verb) }
    ensures { result ≡ middle_make verb numbers.now }
{
    if let Ok(operation) = Operation::try_from(verb) {
        return compute(operation, numbers);
    }
    match (verb, numbers) {
        (Verb::Set, [to, value]) => Middle::Set {
            to: register(*to),
            value: *value,
        },
        (Verb::Mov, [to, from]) => Middle::Mov {
            to: register(*to),
            from: register(*from),
        },
        (Verb::Get, [to, from]) => Middle::Get {
            to: register(*to),
            slot: slot(*from),
        },
        (Verb::Put, [from]) => Middle::Put {
            from: register(*from),
        },
        _ => unreachable(),
    }
}

// The last node of a verb with these operands.
fn last_of(verb: Verb, numbers: &[i32]) -> Last
    requires last { ends_block verb ≡ true }
    requires many { length numbers.now ≡ length (kinds_of verb) }
    ensures { result ≡ last_make verb numbers.now }
{
    match (verb, numbers) {
        (Verb::Go, [target]) => Last::Go {
            target: block(*target),
        },
        (Verb::If, [test, then, other]) => Last::If {
            test: register(*test),
            then: block(*then),
            other: block(*other),
        },
        (Verb::End, [from]) => Last::End {
            from: register(*from),
        },
        _ => unreachable(),
    }
}

// The verb of a line, and what follows its first word.
fn head(line: &[u8]) -> Result<(Verb, Option<&[u8]>), Flaw>
    ensures { MatchResult result
        (λ p. (name_of p.0 ≡ (cut_at 32 line.now).0) × (option_map (λ x. x.now) p.1 ≡ (cut_at 32 line.now).1))
        (λ f. (f ≡ Form) × ((v : AnyVerb) → name_of v ≢ (cut_at 32 line.now).0)) }
{
    let (first, rest) = cut(line, b' ');
    let verb = find(first).ok_or(Flaw::Form)?;
    Ok((verb, rest))
}

// A middle node, in a script of so many blocks.
pub fn middle(line: &[u8], blocks: u8) -> Result<Middle, Flaw>
    ensures { result ≡ line_as blocks middle_rows line.now }
{
    let (verb, rest) = head(line)?;
    if ends(verb) {
        return Err(Flaw::Form);
    }
    let numbers = operands(verb, blocks, rest)?;
    Ok(middle_of(verb, &numbers))
}

// A last node, in a script of so many blocks. One function for this and for `middle` would take the test and the maker as
// closures and answer either type, which is no plainer than to say the four steps twice.
pub fn last(line: &[u8], blocks: u8) -> Result<Last, Flaw>
    ensures { result ≡ line_as blocks last_rows line.now }
{
    let (verb, rest) = head(line)?;
    if !ends(verb) {
        return Err(Flaw::Form);
    }
    let numbers = operands(verb, blocks, rest)?;
    Ok(last_of(verb, &numbers))
}
