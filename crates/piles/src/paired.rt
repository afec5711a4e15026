// Pairs, and pairs of pairs.
use super::ways::{Example, differs, stand};
use nonzero::NonZero;
use pass::pair::Pair;
use passes::constants::Constants;
use passes::copies::Copies;
use script::node::{Last, Middle};
use std::test::Fail;

fn pair<A, B>(first: A, second: B) -> Pair<A, B> {
    Pair { first, second }
}

// The first pass's piece, and only where there is none the second's.
#[test]
fn which_piece(rt: HostRuntime) -> Result<(), Fail> {
    let both = pair(Constants, Copies);
    stand::<Middle, _>(
        &rt,
        &both,
        &[
            ("set r1 4|mov r2 r1", "mov r3 r2", Some("set r3 4")),
            ("set r1 4|mov r2 r1", "put r2", Some("put r1")),
            ("get r1 0|mov r2 r1", "mov r3 r2", Some("mov r3 r1")),
            ("get r1 0|mov r2 r1", "put r1", None),
            (
                "set r1 4|mov r2 r1&set r1 5|mov r2 r1",
                "mov r3 r2",
                Some("mov r3 r1"),
            ),
        ],
    )?;
    stand::<Last, _>(
        &rt,
        &both,
        &[
            ("set r1 4|mov r2 r1", "if r2 b1 b2", Some("go b1")),
            ("get r1 0|mov r2 r1", "if r2 b1 b2", Some("if r1 b1 b2")),
            (
                "get r1 0|mov r2 r1|if r1 b1 b2 second",
                "if r1 b1 b2",
                Some("go b2"),
            ),
            ("set r1 4|mov r2 r1", "end r2", Some("end r1")),
        ],
    )?;
    stand::<Middle, _>(
        &rt,
        &pair(Copies, Constants),
        &[("set r1 4|mov r2 r1", "mov r3 r2", Some("mov r3 r1"))],
    )
}

#[test]
fn differs_where_either_half_does(rt: HostRuntime) -> Result<(), Fail> {
    let both = pair(Constants, Copies);
    assert!(rt; differs(&both, "set r1 4", "set r1 5")?);
    assert!(rt; differs(&both, "get r1 0|mov r2 r1", "get r1 0|get r2 0")?);
    assert!(rt; differs(&both, "set r1 4|mov r2 r1", "set r1 5")?);
    assert!(rt; !differs(&both, "get r1 0|mov r2 r1", "set r1 4|mov r2 r1")?);
    Ok(())
}

const PILE: &[Example] = &[
    ("set r1 5", "if r1 b1 b2", Some("go b1")),
    ("get r1 0|mov r2 r1", "if r2 b1 b2", Some("if r1 b1 b2")),
    ("get r1 0|if r1 b1 b2 first", "if r1 b3 b4", Some("go b3")),
    ("get r1 0|if r1 b1 b2 second", "if r1 b3 b4", Some("go b4")),
    ("get r1 0", "if r1 b3 b4", None),
    ("set r1 5&set r1 6", "if r1 b1 b2", Some("go b1")),
];

#[test]
fn piles(rt: HostRuntime) -> Result<(), Fail> {
    let three = pair(pair(Constants, Copies), NonZero);
    stand::<Last, _>(&rt, &three, PILE)?;
    let other = pair(Constants, pair(Copies, NonZero));
    stand::<Last, _>(&rt, &other, PILE)?;
    let deep = pair(pair(three, pair(Copies, Copies)), pair(other, three));
    stand::<Last, _>(&rt, &deep, PILE)?;
    stand::<Middle, _>(
        &rt,
        &deep,
        &[("get r1 0|mov r2 r1", "put r2", Some("put r1"))],
    )
}
