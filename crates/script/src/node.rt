// The nodes of a script.
use super::register::{Register, Slot};

// The arithmetic of two registers.
#[derive(Clone, Copy, Debug, PartialEq, Eq)]
pub enum Operation {
    Add,
    Sub,
    Mul,
    Div,
    Rem,
    Lt,
    Eq,
}

// A node inside a block.
#[derive(Clone, Copy, Debug, PartialEq, Eq)]
pub enum Middle {
    // set d k
    Set {
        to: Register,
        value: i32,
    },
    // mov d a
    Mov {
        to: Register,
        from: Register,
    },
    // add d a b, and likewise sub, mul, div, rem, lt and eq
    Compute {
        operation: Operation,
        to: Register,
        left: Register,
        right: Register,
    },
    // get d s
    Get {
        to: Register,
        slot: Slot,
    },
    // put a
    Put {
        from: Register,
    },
}

// `put r0`, which stands in the places of a row that no node has taken. By hand: only a variant without fields can be derived.
impl Default for Middle {
    ghost use Rattle.std.specs.Prelude.{◌≡◌};
    ghost use Rattle.script.specs.Model.{unused};

    ghost is_default = { λ m. m ≡ unused };

    fn default() -> Middle {
        let from = Register::default();
        Middle::Put { from }
    }
}

// The node that ends a block. A block is named by its place in the script, from 0.
#[derive(Clone, Copy, Debug, PartialEq, Eq)]
pub enum Last {
    // go L
    Go { target: u8 },
    // if a L M: to L when a is not 0, else to M
    If { test: Register, then: u8, other: u8 },
    // end a
    End { from: Register },
}

// `end r0`. By hand, as `put r0`.
impl Default for Last {
    ghost use Rattle.std.specs.Prelude.{◌≡◌};
    ghost use Rattle.script.specs.Run.{end_r0};

    ghost is_default = { λ l. l ≡ end_r0 };

    fn default() -> Last {
        let from = Register::default();
        Last::End { from }
    }
}
