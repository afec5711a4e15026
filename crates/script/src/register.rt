// A register and a slot: numbers below sixteen. One type with the limit as a parameter would be no plainer: both limits are
// sixteen, so a slot could stand for a register.
ghost use Rattle.std.specs.Prelude.{◌≡◌, ◌<◌};
ghost use Rattle.script.specs.Limits.{registers, slots};

// One of the registers r0 to r15.
#[derive(Clone, Copy, Debug, PartialEq, Eq)]
pub struct Register {
    pub index: u8,
    ghost ok: { index < registers },
}

// r0. By hand: a struct with a ghost field has no derived one.
impl Default for Register {
    ghost is_default = { λ r. r.index ≡ 0 };

    fn default() -> Register {
        Register { index: 0 }
    }
}

// One of the slots 0 to 15, which the job fills before a run.
#[derive(Clone, Copy, Debug, PartialEq, Eq)]
pub struct Slot {
    pub index: u8,
    ghost ok: { index < slots },
}
