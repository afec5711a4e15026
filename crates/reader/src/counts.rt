// The counts of the contents lines.
ghost use Rattle.std.specs.Prelude.{◌≡◌, ◌<◌, ◌≤◌, length};
ghost use Rattle.script.specs.Limits.{most_middles};
ghost use Rattle.reader.specs.Totals.{total};

use super::row::Row;
use script::limits::MOST_BLOCKS;

// How many blocks there are, and how many middle nodes each has.
#[derive(Drop)]
pub(crate) struct Counts<'a> {
    pub(crate) blocks: u8,
    pub(crate) each: Row<'a, usize, MOST_BLOCKS>,
    ghost some: { 0 < blocks },
    ghost one_each: { length each ≡ blocks },
    ghost small: { total each ≤ most_middles },
}
