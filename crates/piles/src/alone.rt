// Each pass alone.
use super::ways::{Example, differs, stand};
use nonzero::NonZero;
use passes::constants::Constants;
use passes::copies::Copies;
use script::node::{Last, Middle};
use std::test::Fail;

const CONSTANTS: &[Example] = &[
    // every register holds 0 at first
    ("", "mov r2 r1", Some("set r2 0")),
    ("", "add r1 r2 r3", Some("set r1 0")),
    ("set r1 4", "mov r2 r1", Some("set r2 4")),
    ("set r1 4|mov r2 r1", "mov r3 r2", Some("set r3 4")),
    ("set r1 -7|set r2 2", "div r3 r1 r2", Some("set r3 -3")),
    ("set r1 -7|set r2 2", "rem r3 r1 r2", Some("set r3 -1")),
    ("set r1 -7|set r2 2", "lt r3 r1 r2", Some("set r3 1")),
    (
        "set r1 2147483647|set r2 1",
        "add r3 r1 r2",
        Some("set r3 -2147483648"),
    ),
    ("set r1 5", "div r3 r1 r2", Some("set r3 0")),
    ("set r1 3|add r2 r1 r1", "mul r1 r1 r2", Some("set r1 18")),
    // what is read must be known, all of it
    ("get r1 0", "mov r2 r1", None),
    ("get r1 0", "add r2 r1 r3", None),
    ("get r1 0", "add r2 r3 r1", None),
    ("set r1 4|get r1 0", "mov r2 r1", None),
    ("get r1 0|mov r2 r1", "mov r3 r2", None),
    ("get r1 0|sub r2 r1 r1", "mov r3 r2", None),
    ("get r1 0|set r1 4", "mov r2 r1", Some("set r2 4")),
    ("put r1", "mov r2 r1", Some("set r2 0")),
    // nothing stands in place of these
    ("", "set r1 4", None),
    ("", "get r1 0", None),
    ("set r1 4", "put r1", None),
    // along the second edge the number that is tested is 0
    ("get r1 0|if r1 b1 b2 second", "mov r2 r1", Some("set r2 0")),
    ("get r1 0|if r1 b1 b2 first", "mov r2 r1", None),
    ("get r1 0|if r1 b1 b1 second", "mov r2 r1", Some("set r2 0")),
    ("set r1 4|go b1 first", "mov r2 r1", Some("set r2 4")),
    // where ways meet
    ("set r1 4&set r1 4", "mov r2 r1", Some("set r2 4")),
    ("set r1 4&set r1 5", "mov r2 r1", None),
    ("set r1 4&get r1 0", "mov r2 r1", None),
    ("get r1 0&set r1 4", "mov r2 r1", None),
    ("set r1 4&set r1 5", "mov r2 r3", Some("set r2 0")),
];

const CONSTANT_LASTS: &[Example] = &[
    ("", "if r1 b1 b2", Some("go b2")),
    ("set r1 5", "if r1 b1 b2", Some("go b1")),
    ("set r1 -1", "if r1 b1 b2", Some("go b1")),
    ("get r1 0", "if r1 b1 b2", None),
    ("get r1 0", "if r1 b3 b3", Some("go b3")),
    ("set r1 5", "if r1 b3 b3", Some("go b3")),
    ("", "go b1", None),
    ("", "end r1", None),
];

const COPIES: &[Example] = &[
    ("", "put r2", None),
    ("mov r2 r1", "put r2", Some("put r1")),
    ("mov r2 r1", "put r1", None),
    ("mov r2 r1", "mov r3 r2", Some("mov r3 r1")),
    ("mov r2 r1", "mov r1 r2", Some("mov r1 r1")),
    ("mov r2 r1", "add r3 r2 r2", Some("add r3 r1 r1")),
    ("mov r2 r1", "sub r3 r2 r4", Some("sub r3 r1 r4")),
    ("mov r2 r1", "sub r3 r4 r2", Some("sub r3 r4 r1")),
    ("mov r2 r1|mov r4 r3", "eq r5 r2 r4", Some("eq r5 r1 r3")),
    ("mov r2 r1", "add r3 r4 r5", None),
    ("mov r2 r1", "set r2 1", None),
    ("mov r2 r1", "get r2 0", None),
    // writing a register takes away its source, and takes it away as a source
    ("mov r2 r1|set r2 5", "put r2", None),
    ("mov r2 r1|set r1 5", "put r2", None),
    ("mov r2 r1|get r1 0", "put r2", None),
    ("mov r2 r1|add r1 r1 r3", "put r2", None),
    ("mov r2 r1|mov r3 r1|set r1 5", "put r3", None),
    ("mov r2 r1|mov r2 r3", "put r2", Some("put r3")),
    ("mov r2 r1|mov r1 r2", "put r1", Some("put r2")),
    ("mov r2 r1|mov r1 r2", "put r2", None),
    ("mov r2 r1|put r2", "put r2", Some("put r1")),
    // a register moved to itself alters nothing
    ("mov r2 r1|mov r2 r2", "put r2", Some("put r1")),
    ("mov r2 r1|mov r1 r1", "put r2", Some("put r1")),
    ("mov r2 r2", "put r2", None),
    // edges alter nothing
    ("mov r2 r1|if r3 b1 b2 first", "put r2", Some("put r1")),
    ("mov r2 r1|if r2 b1 b2 second", "put r2", Some("put r1")),
    ("mov r2 r1|go b1 first", "put r2", Some("put r1")),
    // where ways meet
    ("mov r2 r1&set r4 1|mov r2 r1", "put r2", Some("put r1")),
    ("mov r2 r1&mov r2 r3", "put r2", None),
    ("mov r2 r1&", "put r2", None),
    ("&mov r2 r1", "put r2", None),
];

const COPY_LASTS: &[Example] = &[
    ("mov r2 r1", "if r2 b1 b2", Some("if r1 b1 b2")),
    ("mov r2 r1", "if r1 b1 b2", None),
    ("mov r2 r1", "end r2", Some("end r1")),
    ("mov r2 r1", "end r3", None),
    ("mov r2 r1", "go b1", None),
];

const NONZERO_LASTS: &[Example] = &[
    ("", "if r1 b1 b2", None),
    ("set r1 5", "if r1 b1 b2", Some("go b1")),
    ("set r1 -5", "if r1 b1 b2", Some("go b1")),
    ("set r1 5|set r1 0", "if r1 b1 b2", None),
    ("set r1 5|mov r2 r1", "if r2 b1 b2", Some("go b1")),
    ("set r1 5|mov r1 r2", "if r1 b1 b2", None),
    ("set r1 5|put r1", "if r1 b1 b2", Some("go b1")),
    ("set r1 5|add r1 r1 r1", "if r1 b1 b2", None),
    ("set r1 5|get r1 0", "if r1 b1 b2", None),
    ("get r1 0|if r1 b1 b2 first", "if r1 b3 b4", Some("go b3")),
    ("get r1 0|if r1 b1 b2 second", "if r1 b3 b4", None),
    ("set r1 5|go b1 first", "if r1 b1 b2", Some("go b1")),
    ("set r1 5&set r1 6", "if r1 b1 b2", Some("go b1")),
    ("set r1 5&set r1 0", "if r1 b1 b2", None),
    ("set r1 5", "go b1", None),
    ("set r1 5", "end r1", None),
];

#[test]
fn constants(rt: HostRuntime) -> Result<(), Fail> {
    stand::<Middle, _>(&rt, &Constants, CONSTANTS)?;
    stand::<Last, _>(&rt, &Constants, CONSTANT_LASTS)
}

#[test]
fn copies(rt: HostRuntime) -> Result<(), Fail> {
    stand::<Middle, _>(&rt, &Copies, COPIES)?;
    stand::<Last, _>(&rt, &Copies, COPY_LASTS)
}

#[test]
fn registers_that_are_not_zero(rt: HostRuntime) -> Result<(), Fail> {
    stand::<Middle, _>(&rt, &NonZero, &[("set r1 5", "mov r2 r1", None)])?;
    stand::<Last, _>(&rt, &NonZero, NONZERO_LASTS)
}

#[test]
fn joins_that_differ(rt: HostRuntime) -> Result<(), Fail> {
    assert!(rt; differs(&Constants, "set r1 4", "set r1 5")?);
    assert!(rt; differs(&Constants, "set r1 4", "get r1 0")?);
    assert!(rt; !differs(&Constants, "get r1 0", "set r1 4")?);
    assert!(rt; !differs(&Constants, "set r1 4", "set r1 4")?);
    assert!(rt; differs(&Copies, "mov r2 r1", "")?);
    assert!(rt; differs(&Copies, "mov r2 r1", "mov r2 r3")?);
    assert!(rt; !differs(&Copies, "", "mov r2 r1")?);
    assert!(rt; differs(&NonZero, "set r1 4", "")?);
    assert!(rt; !differs(&NonZero, "", "set r1 4")?);
    Ok(())
}
