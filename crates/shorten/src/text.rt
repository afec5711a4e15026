// The texts that come in and go out.
ghost use Rattle.std.specs.Prelude.{◌≡◌};
ghost use Rattle.script.specs.Model.{program_of};
ghost use Rattle.writer.specs.Text.{text as text_of};
ghost use Rattle.shorten.specs.Loaded.{Loaded};

use super::arguments::Source;
use super::stop::Stop;
use script::limits::MOST_BYTES;
use script::store::Script;
use std::alloc::Global;
use std::io::Read;
use std::{fs, io};
use tell::notice::Notice;

fn standard_input(rt: &HostRuntime) -> io::Result<Vec<u8>> {
    let mut text = Vec::new(rt.alloc());
    rt.stdin().read_to_end(&mut text)?;
    Ok(text)
}

// The whole text of a source.
pub fn load<'a>(rt: &HostRuntime, source: &'a Source) -> Result<Vec<u8>, Stop<'a>> {
    let loaded = match source {
        Source::StandardInput => standard_input(rt),
        Source::Path(path) => fs::read(rt, path.as_str()),
    };
    loaded.map_err(|error| Stop::File {
        name: source.name(),
        error,
    })
}

// The script of a text that has this name. A text that is longer than any script's is not read.
pub fn script<'a>(heap: Global, name: &'a str, text: &[u8]) -> Result<Script, Stop<'a>>
    ensures { Loaded name.now text.now result }
{
    if text.len() > MOST_BYTES {
        return Err(Stop::Unread(Notice::too_long(name)));
    }
    let mut script = Script::new(heap)?;
    reader::read(text, &mut script).map_err(|fault| Stop::Unread(Notice::of_fault(name, fault)))?;
    Ok(script)
}

// The text of a script, in memory that every script's text fits into.
pub fn written<'a>(script: &Script, memory: &'a mut [u8; MOST_BYTES]) -> &'a [u8]
    ensures { result.now ≡ text_of (program_of script.now) }
{
    let length = writer::write(script, memory).unwrap();
    &memory[..length]
}

// Writes a text into a file.
pub fn save<'a>(rt: &HostRuntime, path: &'a str, text: &[u8]) -> Result<(), Stop<'a>> {
    fs::write(rt, path, text).map_err(|error| Stop::File { name: path, error })
}
