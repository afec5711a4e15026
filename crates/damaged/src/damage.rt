// Damaged lines, and how they are tried.
use super::good::{SETTLE, is_written_as, script_of};
use super::shorthand::spelt;
use super::{contents, feeds, headers, lasts, middles, totals};
use reader::fault::{Fault, Layer};
use reader::read;
use script::store::Script;
use std::alloc::{AllocError, Global};
use std::process::Abort;
use std::test::Fail;

// The fault that a text must have. A number by a rule of the project: docs/TEXT.md knows a fault by it. The layer stands
// beside it, though it follows from it, since the rows say all that people see, each by itself.
#[derive(Clone, Copy, Debug, PartialEq, Eq)]
pub struct Wanted {
    pub number: u8,
    pub layer: Layer,
    pub line: usize,
    pub place: usize,
}

// In tests alone, so it has no clause.
impl From<Fault> for Wanted {
    fn from(fault: Fault) -> Wanted {
        Wanted {
            number: fault.number(),
            layer: fault.layer(),
            line: fault.line,
            place: fault.place,
        }
    }
}

// Lines that give the same fault in the same text.
pub struct Damage {
    pub wanted: Wanted,
    // the text before the line
    pub before: &'static str,
    // the lines, with a semicolon between them; the text has one of them
    pub lines: &'static str,
    // the text after it
    pub after: &'static str,
}

// That the text of a line has a fault, and just this one.
fn has_fault(rt: &impl Abort, line: &str, text: &[u8], script: &mut Script, wanted: Wanted) {
    assert_eq!(rt;
        read(text, script).map_err(Wanted::from),
        Err(wanted),
        "{line}"
    );
}

// The text of a row that has this line.
fn text_with(heap: Global, row: &Damage, line: &str) -> Result<Vec<u8>, AllocError> {
    let shorthand = format!(in heap; "{}{line}{}", row.before, row.after)?;
    spelt(heap, shorthand.as_str())
}

// The same of each line of each row.
fn try_all(
    rt: &impl Abort,
    heap: Global,
    table: &[Damage],
    script: &mut Script,
) -> Result<(), Fail> {
    for row in table {
        for line in row.lines.split(';') {
            let text = text_with(heap, row, line)?;
            has_fault(rt, line, text.as_slice(), script, row.wanted);
        }
    }
    Ok(())
}

const TABLES: [&[Damage]; 6] = [
    feeds::TABLE,
    headers::TABLE,
    contents::TABLE,
    middles::TABLE,
    lasts::TABLE,
    totals::TABLE,
];

// The script that the texts are read into is as it was after all of them.
#[test]
fn damaged_texts(rt: HostRuntime) -> Result<(), Fail> {
    let mut script = script_of(&rt, rt.alloc(), SETTLE)?;
    for table in TABLES {
        try_all(&rt, rt.alloc(), table, &mut script)?;
    }
    assert!(rt; is_written_as(rt.alloc(), &script, SETTLE)?);
    Ok(())
}
