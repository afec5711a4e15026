// Reads a whole text.
ghost use Rattle.std.specs.Prelude.{◌≡◌, Ok, Err};
ghost use Rattle.reader.specs.Cases.{AllStand};
ghost use Rattle.reader.specs.Cursors.{cursor_of};
ghost use Rattle.reader.specs.Read.{finished, read as read_text};
ghost use Rattle.reader.specs.Reads.{Reads};
ghost use Rattle.reader.specs.Rows.{rows_program};
ghost use Rattle.script.specs.Run.{Program};

use super::cursor::Cursor;
use super::fault::{Due, Fault, Question};
use super::rows::Rows;
use script::block::BlockEnd;
use script::limits::{MOST_BLOCKS, MOST_MIDDLES};
use script::node::Middle;
use script::store::Script;

impl Cursor<'_> {
    // That the text ends here.
    fn finish(&self) -> Result<(), Fault>
        ensures { elim result [ Ok _ ↦ ((p : Program) → finished self.now.rest.now (cursor_of self.now) p ≡ Ok p) | Err f ↦ ((p : Program) → finished self.now.rest.now (cursor_of self.now) p ≡ Err f) ] }
    {
        if self.rest.is_empty() {
            Ok(())
        } else {
            Err(self.fault(Question::Finish, Due::Nothing))
        }
    }
}

// Reads a text into rows, whose places are lent.
fn parse<'m>(
    text: &[u8],
    middles: &'m mut [Middle; MOST_MIDDLES],
    ends: &'m mut [BlockEnd; MOST_BLOCKS],
) -> Result<Rows<'m>, Fault>
    ensures { elim result [ Ok rows ↦ read_text text.now ≡ Ok (rows_program rows) | Err f ↦ read_text text.now ≡ Err f ] }
{
    let mut at = Cursor {
        rest: text,
        line: 1,
        place: 0,
    };
    let blocks = at.header()?;
    let mut each = [0; MOST_BLOCKS];
    let counts = at.contents(blocks, &mut each)?;
    let rows = at.bodies(&counts, middles, ends)?;
    at.finish()?;
    Ok(rows)
}

// Reads a text into a script. On a fault the script is as it was.
pub fn read(text: &[u8], into: &mut Script) -> Result<(), Fault>
    ensures { Reads text.now into.old result into.new }
{
    let mut middles = [Middle::default(); MOST_MIDDLES];
    let mut ends = [BlockEnd::default(); MOST_BLOCKS];
    parse(text, &mut middles, &mut ends)?.copy_to(into);
    Ok(())
}

// The worked cases of reading stand.
pub fn cases_stand()
    ensures { AllStand }
{}
