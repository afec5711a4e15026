// Puts whole lines onto a page.
ghost use Rattle.std.specs.Prelude.{[], ◌∷◌, ◌++◌};
ghost use Rattle.words.specs.Table.{name_of, kinds_of};
ghost use Rattle.words.specs.Words.{spaced};
ghost use Rattle.writer.specs.Text.{header_text, count_text, middle_text, last_text};
ghost use Rattle.writer.specs.Wrote.{Wrote};

use super::put::{Page, put_lettered, put_operands};
use arrayvec::CapacityError;
use script::node::{Last, Middle};
use words::kind::Kind;
use words::table::{kinds, name};
use words::verb::Verb;

// The words after the first, and the line feed. The kinds and the numbers come side by side, since the kinds are a row of
// the table and a vector of pairs would have to be made; `put_operands` zips them.
fn put_rest(page: &mut Page, kinds: &[Kind], values: &[i32]) -> Result<(), CapacityError>
    ensures { Wrote result page.old.items (spaced kinds.now values.now ++ 10 ∷ []) page.new.items }
{
    put_operands(page, kinds, values)?;
    page.try_extend_from_slice(b"\n")
}

// `blocks N`
pub(crate) fn put_header(page: &mut Page, n: u8) -> Result<(), CapacityError>
    ensures { Wrote result page.old.items (header_text n ++ 10 ∷ []) page.new.items }
{
    page.try_extend_from_slice(b"blocks")?;
    put_rest(page, &[Kind::SizeWord], &[i32::from(n)])
}

// `bI C`
pub(crate) fn put_count(page: &mut Page, i: u8, count: u16) -> Result<(), CapacityError>
    ensures { Wrote result page.old.items (count_text i count ++ 10 ∷ []) page.new.items }
{
    put_lettered(page, b'b', i32::from(i))?;
    put_rest(page, &[Kind::CountWord], &[i32::from(count)])
}

// The line of a node with these operands.
fn put_node(page: &mut Page, verb: Verb, values: &[i32]) -> Result<(), CapacityError>
    ensures { Wrote result page.old.items (name_of verb ++ (spaced (kinds_of verb) values.now ++ 10 ∷ [])) page.new.items }
{
    page.try_extend_from_slice(name(verb))?;
    put_rest(page, kinds(verb), values)
}

// The line of a middle node.
pub(crate) fn put_middle(page: &mut Page, node: Middle) -> Result<(), CapacityError>
    ensures { Wrote result page.old.items (middle_text node ++ 10 ∷ []) page.new.items }
{
    match node {
        Middle::Set { to, value } => put_node(page, Verb::Set, &[i32::from(to.index), value]),
        Middle::Mov { to, from } => put_node(
            page,
            Verb::Mov,
            &[i32::from(to.index), i32::from(from.index)],
        ),
        Middle::Compute {
            operation,
            to,
            left,
            right,
        } => put_node(
            page,
            Verb::from(operation),
            &[
                i32::from(to.index),
                i32::from(left.index),
                i32::from(right.index),
            ],
        ),
        Middle::Get { to, slot } => put_node(
            page,
            Verb::Get,
            &[i32::from(to.index), i32::from(slot.index)],
        ),
        Middle::Put { from } => put_node(page, Verb::Put, &[i32::from(from.index)]),
    }
}

// The line of a last node.
pub(crate) fn put_last(page: &mut Page, node: Last) -> Result<(), CapacityError>
    ensures { Wrote result page.old.items (last_text node ++ 10 ∷ []) page.new.items }
{
    match node {
        Last::Go { target } => put_node(page, Verb::Go, &[i32::from(target)]),
        Last::If { test, then, other } => put_node(
            page,
            Verb::If,
            &[i32::from(test.index), i32::from(then), i32::from(other)],
        ),
        Last::End { from } => put_node(page, Verb::End, &[i32::from(from.index)]),
    }
}
