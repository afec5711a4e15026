// Sources: for each register another one that holds the same number, or none.
//
// Whatever is done to them keeps the invariant that no register is its own source, so who reads a source needs no check.
ghost use Rattle.std.specs.Prelude.{◌≡◌, true, false, map, MatchOption, nat_eq};
ghost use Rattle.passes.specs.Shared.{common, differ};
ghost use Rattle.passes.specs.Sources.{fine as fine_at, well, without as without_it, killed, moved, row_after, source_of};

use crate::rows::{self, Row};
use script::limits::REGISTERS;
use script::node::Middle;
use script::register::Register;

#[derive(Clone, Copy, Debug, PartialEq, Eq)]
pub struct Sources {
    pub row: Row<u8>,
    ghost ok: { well row ≡ true },
}

// Whether a register may have this source: none, or another register.
fn fine(register: usize, source: Option<u8>) -> bool
    ensures { result ≡ fine_at register source }
{
    source.is_none_or(|s| s < REGISTERS && usize::from(s) != register)
}

// A source, unless it is d.
fn without(d: Register, source: Option<u8>) -> Option<u8>
    ensures { result ≡ without_it d.index source }
{
    source.filter(|s| *s != d.index)
}

// The row without the sources that are d.
fn cleared(mut row: Row<u8>, d: Register) -> Row<u8>
    ensures { result ≡ map (without_it d.index) row }
{
    for source in &mut row {
        *source = without(d, *source);
    }
    row
}

impl Sources {
    // The sources of a plain row, where no register is its own source and every source is a register. No `TryFrom`: its
    // error would say no more than none does.
    pub fn checked(row: Row<u8>) -> Option<Sources>
        ensures { MatchOption result (well row ≡ false) (λ s. (s.row ≡ row) × (well row ≡ true)) }
    {
        if !row.iter().enumerate().all(|(i, source)| fine(i, *source)) {
            return None;
        }
        Some(Sources { row })
    }

    // The source of a register.
    pub fn of(&self, register: Register) -> Option<Register>
        ensures { result ≡ source_of self.now.row register }
    {
        let index = self.row[usize::from(register.index)]?;
        Some(Register { index })
    }

    // The sources that both have, and whether these are fewer than the old ones: both, since a join of a lattice answers both.
    pub fn join(&self, new: &Sources) -> (Sources, bool)
        ensures shared { result.0.row ≡ common nat_eq self.now.row new.now.row }
        ensures differs { result.1 ≡ differ nat_eq self.now.row new.now.row }
    {
        let (row, differs) = rows::join(self.row, new.row);
        (Sources { row }, differs)
    }

    // After a register is written: it has no source, and is the source of none.
    pub fn kill(&self, d: Register) -> Sources
        ensures { result.row ≡ killed self.now.row d.index }
    {
        let mut row = cleared(self.row, d);
        row[usize::from(d.index)] = None;
        Sources { row }
    }

    // After `mov d a`.
    pub fn mov(&self, d: Register, a: Register) -> Sources
        ensures { result.row ≡ moved self.now.row d.index a.index }
    {
        if d == a {
            return *self;
        }
        let mut row = self.kill(d).row;
        row[usize::from(d.index)] = Some(a.index);
        Sources { row }
    }

    // After a middle node.
    pub fn after(&self, node: Middle) -> Sources
        ensures { result.row ≡ row_after node self.now.row }
    {
        match node {
            Middle::Set { to, .. } | Middle::Compute { to, .. } | Middle::Get { to, .. } => {
                self.kill(to)
            }
            Middle::Mov { to, from } => self.mov(to, from),
            Middle::Put { .. } => *self,
        }
    }
}
