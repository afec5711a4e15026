// Examples: what leads to a node, the node, and what must be proposed in its place.
//
// A way is nodes from the beginning of a script, with a bar between two. A last node in it is followed by the edge that
// the way takes, as in `if r1 b1 b2 first`. Where an ampersand stands between two ways, they meet, and what is known after
// them is joined.
use super::offered::Offered;
use pass::edge::Edge;
use pass::forward::ForwardPass;
use script::node::{Last, Middle};
use std::process::Abort;
use std::test::Fail;

// The ways, the node that is offered after them, and the one node that must be proposed for it, or none where there must
// be no piece.
pub type Example = (&'static str, &'static str, Option<&'static str>);

// What is known after one more line of a way.
fn beyond<P: ForwardPass>(pass: &P, line: &str, fact: P::Fact) -> Result<P::Fact, Fail> {
    if let Some((node, _)) = line.split_once(" first") {
        return Ok(pass.along(Last::named(node)?, Edge::First, fact));
    }
    if let Some((node, _)) = line.split_once(" second") {
        return Ok(pass.along(Last::named(node)?, Edge::Second, fact));
    }
    Ok(pass.after(Middle::named(line)?, fact))
}

// What is known after a way.
fn along_way<P: ForwardPass>(pass: &P, way: &str) -> Result<P::Fact, Fail> {
    let mut fact = pass.start();
    if !way.is_empty() {
        for line in way.split('|') {
            fact = beyond(pass, line, fact)?;
        }
    }
    Ok(fact)
}

// What is known where ways meet.
fn after_ways<P: ForwardPass>(pass: &P, ways: &str) -> Result<P::Fact, Fail> {
    match ways.split_once('&') {
        Some((one, other)) => {
            let (fact, _) = pass.join(along_way(pass, one)?, along_way(pass, other)?);
            Ok(fact)
        }
        None => along_way(pass, ways),
    }
}

// The piece that an example expects, if any.
fn expected<N: Offered>(node: Option<&str>) -> Result<Option<N::Piece>, Fail> {
    match node {
        Some(line) => Ok(Some(N::named(line)?.alone())),
        None => Ok(N::nothing()),
    }
}

// Whether a pass proposes for each node what it must.
pub fn stand<N: Offered, P: ForwardPass>(
    rt: &impl Abort,
    pass: &P,
    examples: &[Example],
) -> Result<(), Fail> {
    for (ways, offered, proposed) in examples {
        let piece = N::named(offered)?.piece(pass, after_ways(pass, ways)?);
        assert_eq!(rt; piece, expected::<N>(*proposed)?, "{offered}");
    }
    Ok(())
}

// Whether joining what is known after the second way to what is known after the first differs from it, as it must.
pub fn differs<P: ForwardPass>(pass: &P, old: &str, new: &str) -> Result<bool, Fail> {
    let (_, differs) = pass.join(along_way(pass, old)?, along_way(pass, new)?);
    Ok(differs)
}
