// Rows with one element for each register, or none: what two of them have in common.
ghost use Rattle.std.specs.Prelude.{◌≡◌, ◌<◌};
ghost use Rattle.script.specs.Limits.{registers};
ghost use Rattle.passes.specs.Shared.{both as both_have, shared, common, differ};

use script::limits::EACH_REGISTER;
use std::array;

// For each register an element, or none.
pub type Row<T> = [Option<T>; EACH_REGISTER];

// What both have, where it is the same.
fn both<T: Eq + Copy>(a: Option<T>, b: Option<T>) -> Option<T>
    ensures { result ≡ both_have T.eq a b }
{
    if a == b { a } else { None }
}

// What both rows have, and whether this differs from the old row: both, since a join of a lattice answers both. (It goes by
// index, since arrays have no `zip`.)
pub fn join<T: Eq + Copy>(old: Row<T>, new: Row<T>) -> (Row<T>, bool)
    ensures shared { result.0 ≡ common T.eq old new }
    ensures differs { result.1 ≡ differ T.eq old new }
{
    let row = array::from_fn(
        |i|
            requires { i < registers }
            ensures { result ≡ shared T.eq old new i }
        { both(old[i], new[i]) },
    );
    let differs = row != old;
    (row, differs)
}
