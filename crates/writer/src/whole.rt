// Writes a whole text.
ghost use Rattle.std.specs.Prelude.{◌≡◌, ℕ, ◌≤◌, List, length, Ok};
ghost use Rattle.reader.specs.Read.{read};
ghost use Rattle.script.specs.Limits.{most_bytes};
ghost use Rattle.script.specs.Model.{program_of};
ghost use Rattle.writer.specs.Text.{text as text_of};
ghost use Rattle.writer.specs.Writes.{Writes};
ghost use Rattle.writer.specs.Wrote.{Wrote};

use super::bodies::{put_bodies, put_counts};
use super::line::put_header;
use super::put::Page;
use arrayvec::CapacityError;
use script::store::Script;

// The whole text, after what stands on the page.
fn put_text(page: &mut Page, script: &Script) -> Result<(), CapacityError>
    ensures { Wrote result page.old.items (text_of (program_of script.now)) page.new.items }
{
    // `as`: a try_from would make an error that can't come, as a script has few enough blocks.
    put_header(page, script.block_count() as u8)?;
    put_counts(page, script)?;
    put_bodies(page, script)
}

// Copies a text to the beginning of lent bytes and answers its length, or leaves them all as they were where it does not fit.
fn copy_out(text: &[u8], out: &mut [u8]) -> Option<usize>
    ensures { Writes result text.now out.old out.new }
{
    // Not by `get_mut(..)?`: once its borrow is over, no clause says what the other bytes are, and the proof needs that.
    if out.len() < text.len() {
        return None;
    }
    out[..text.len()].copy_from_slice(text);
    Some(text.len())
}

// Writes a script's text and answers its length, or leaves all bytes as they were where it does not fit.
pub fn write(script: &Script, out: &mut [u8]) -> Option<usize>
    ensures bytes { Writes result (text_of (program_of script.now)) out.old out.new }
    ensures short { length (text_of (program_of script.now)) ≤ most_bytes }
    ensures back { read (text_of (program_of script.now)) ≡ Ok (program_of script.now) }
    ensures same { (t : List ℕ) → read t ≡ Ok (program_of script.now) → text_of (program_of script.now) ≡ t }
{
    script.numbers_fit();
    let mut page = Page::new();
    put_text(&mut page, script).unwrap();
    copy_out(&page, out)
}
