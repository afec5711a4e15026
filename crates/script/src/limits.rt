// The limits of a script and of its text. Each stands here once, and once in specs/Limits.antt for the contracts.

// The registers are r0 upward, so many.
pub const REGISTERS: u8 = 16;

// The length of a row with one element for each register. By `as`: a constant can't call `usize::from`.
pub const EACH_REGISTER: usize = REGISTERS as usize;

// The slots are 0 upward, so many.
pub const SLOTS: u8 = 16;

// Blocks of a script, at the most.
pub const MOST_BLOCKS: usize = 64;

// Middle nodes of a script, all blocks together, at the most.
pub const MOST_MIDDLES: usize = 512;

// Bytes of a script's text, at the most.
pub const MOST_BYTES: usize = 16384;
