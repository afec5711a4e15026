// Puts the contents lines and the bodies of a script onto a page.
ghost use Rattle.std.specs.Prelude.{[], ◌∷◌, ◌++◌};
ghost use Rattle.script.specs.Model.{program_of};
ghost use Rattle.writer.specs.Text.{middles_text, counts_text, counts, last_text, bodies_text};
ghost use Rattle.writer.specs.Wrote.{Wrote};

use super::line::{put_count, put_last, put_middle};
use super::put::Page;
use arrayvec::CapacityError;
use script::block::Block;
use script::node::Middle;
use script::store::Script;

// The lines of middle nodes.
fn put_middles(page: &mut Page, nodes: &[Middle]) -> Result<(), CapacityError>
    ensures { Wrote result page.old.items (middles_text nodes.now []) page.new.items }
{
    for node in nodes {
        put_middle(page, *node)?;
    }
    Ok(())
}

// The lines of a block.
fn put_block(page: &mut Page, block: Block<'_>) -> Result<(), CapacityError>
    ensures { Wrote result page.old.items (middles_text block.entry.middles.now [] ++ (last_text block.entry.last ++ 10 ∷ [])) page.new.items }
{
    put_middles(page, block.middles)?;
    put_last(page, block.last)
}

// The contents lines.
pub(crate) fn put_counts(page: &mut Page, script: &Script) -> Result<(), CapacityError>
    ensures { Wrote result page.old.items (counts_text 0 (counts (program_of script.now)) []) page.new.items }
{
    for (i, block) in script.blocks().enumerate() {
        // `as`: a try_from would make an error that can't come, as a script has few enough blocks and nodes.
        put_count(page, i as u8, block.middles.len() as u16)?;
    }
    Ok(())
}

// The bodies.
pub(crate) fn put_bodies(page: &mut Page, script: &Script) -> Result<(), CapacityError>
    ensures { Wrote result page.old.items (bodies_text (program_of script.now) []) page.new.items }
{
    for block in script.blocks() {
        put_block(page, block)?;
    }
    Ok(())
}
