// Good texts, which are written as they were read.
use super::shorthand::spelt;
use reader::read;
use script::store::Script;
use std::alloc::{AllocError, Global};
use std::process::Abort;
use std::test::Fail;
use writer::write;

pub const SETTLE: &str =
    "blocks 3|b0 2|b1 3|b2 0|set r1 0|set r2 1|go b1|add r1 r1 r2|put r1|get r3 0|if r3 b1 b2|end r1|";

const TEXTS: &[&str] = &[
    "blocks 1|b0 0|end r0|",
    SETTLE,
    // a branch
    "blocks 5|b0 2|b1 2|b2 1|b3 1|b4 0|set r1 1|set r3 1|go b1|put r1|eq r2 r1 r3|if r2 b3 b2|set r1 2|go b3|get r4 0|if r4 b1 b4|end r1|",
    // every node
    "blocks 3|b0 11|b1 0|b2 0|set r1 7|mov r2 r1|add r3 r1 r2|sub r4 r3 r2|mul r5 r4 r3|div r6 r5 r4|rem r7 r6 r5|lt r8 r7 r6|eq r9 r8 r7|get r10 3|put r10|go b1|if r9 b2 b0|end r15|",
    // the ends of each range
    "blocks 1|b0 6|set r0 0|set r15 -1|set r0 2147483647|set r15 -2147483648|get r15 15|get r0 0|end r15|",
    // digits on both sides of ten
    "blocks 1|b0 10|put r9|put r10|set r9 9|set r9 10|set r9 -9|set r9 -10|set r9 1000000000|set r9 -1000000000|get r9 9|get r10 10|end r10|",
    // a block that goes to itself
    "blocks 1|b0 1|put r0|go b0|",
    "blocks 1|b0 0|if r0 b0 b0|",
    // blocks that nothing leads to
    "blocks 3|b0 0|b1 1|b2 0|end r0|put r1|go b2|if r15 b0 b1|",
    // the same node twice
    "blocks 2|b0 2|b1 2|put r0|put r0|go b1|put r0|put r0|end r0|",
    // one that puts out page numbers
    "blocks 5|b0 5|b1 2|b2 7|b3 3|b4 1|get r0 0|get r1 1|get r2 2|set r3 1|set r4 2|go b1|set r5 0|lt r6 r5 r0|if r6 b2 b4|mov r7 r1|put r7|mul r8 r3 r4|add r9 r2 r8|add r1 r1 r9|sub r0 r0 r3|get r10 3|if r10 b3 b1|rem r11 r1 r4|eq r12 r11 r5|add r1 r1 r12|go b1|sub r1 r1 r3|end r1|",
    // as many middle nodes as there can be, in one block and in as many blocks as there can be
    "blocks 1|b0 512|~end r0|",
    "blocks 2|b0 0|b1 512|go b1|~end r0|",
    "blocks 64|^b63 8|$put r0|put r1|put r2|put r3|put r4|put r5|put r6|put r7|if r0 b63 b62|",
];

// The script of a text.
pub fn script_of(rt: &impl Abort, heap: Global, shorthand: &str) -> Result<Script, Fail> {
    let text = spelt(heap, shorthand)?;
    let mut script = Script::new(heap)?;
    assert!(rt;
        read(text.as_slice(), &mut script).is_ok(),
        "it was not read"
    );
    Ok(script)
}

// Whether a script is written as this text, and a byte past it is unchanged.
pub fn is_written_as(heap: Global, script: &Script, shorthand: &str) -> Result<bool, AllocError> {
    let mut text = spelt(heap, shorthand)?;
    let length = text.len();
    text.push(b'#')?;
    let mut memory = vec![in heap; b'#'; text.len()]?;
    Ok(write(script, memory.as_mut_slice()) == Some(length) && memory == text)
}

#[test]
fn written_as_read(rt: HostRuntime) -> Result<(), Fail> {
    for text in TEXTS {
        let script = script_of(&rt, rt.alloc(), text)?;
        assert!(rt; is_written_as(rt.alloc(), &script, text)?, "{}", text);
    }
    Ok(())
}

// Whether a script does not fit into so many bytes, and none of them is changed.
fn does_not_fit(heap: Global, script: &Script, length: usize) -> Result<bool, AllocError> {
    let before = vec![in heap; b'#'; length]?;
    let mut memory = before.clone()?;
    Ok(write(script, memory.as_mut_slice()).is_none() && memory == before)
}

#[test]
fn memory_too_short(rt: HostRuntime) -> Result<(), Fail> {
    let script = script_of(&rt, rt.alloc(), SETTLE)?;
    // Each length that is too short: a length and no index, so there is nothing to go through.
    for length in 0..SETTLE.len() {
        assert!(rt; does_not_fit(rt.alloc(), &script, length)?, "{}", length);
    }
    Ok(())
}
