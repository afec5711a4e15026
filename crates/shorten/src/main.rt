// Reads a script and says what was done with it, from beginning to end.
//
//     shorten [IN [OUT]]
//
// IN is the path of the script's text; without it, or where it is `-`, the text is read from standard input. Where OUT is
// given, the script is written there. A text that is no script is told of on standard error, and nothing is written.
#![tactic(auto)]

mod arguments;
mod lines;
mod report;
mod stop;
mod text;

use arguments::Arguments;
use report::Report;
use script::limits::MOST_BYTES;
use std::process::ExitCode;
use stop::Stop;

// The whole way of a script, from its text to the text that is written.
fn shorten<'a>(rt: &HostRuntime, arguments: &'a Arguments) -> Result<(), Stop<'a>> {
    let name = arguments.input.name();
    let text = text::load(rt, &arguments.input)?;
    let script = text::script(rt.alloc(), name, text.as_slice())?;
    let mut memory = [0; MOST_BYTES];
    let written = text::written(&script, &mut memory);
    let report = Report {
        name,
        read: text.as_slice(),
        script: &script,
        written,
    };
    lines::print(rt, report)?;
    if let Some(path) = &arguments.output {
        text::save(rt, path.as_str(), written)?;
        println!(rt; "written to: {path}")?;
    }
    Ok(())
}

fn main(rt: HostRuntime) -> anyhow::Result<ExitCode> {
    let arguments = Arguments::given(&rt)?;
    match shorten(&rt, &arguments) {
        Ok(()) => Ok(ExitCode::SUCCESS),
        Err(stop) => {
            eprintln!(rt; "{stop}")?;
            Ok(ExitCode::FAILURE)
        }
    }
}
