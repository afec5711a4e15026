// What the program is called with.
ghost use Rattle.std.specs.Prelude.{◌≡◌};
ghost use Rattle.shorten.specs.Sources.{source_of, name_of};

use anyhow::ensure;
use std::env;

// Where the text comes from. An `Option<String>` would be no plainer: its `None` would read as if there were no text.
#[derive(Drop)]
pub enum Source {
    StandardInput,
    Path(String),
}

// The source that a word names: none or `-` is standard input.
impl From<Option<String>> for Source {
    ghost from_gives = { λ word source. source ≡ source_of word };

    fn from(word: Option<String>) -> Source {
        match word {
            Some(path) if path.as_str() != "-" => Source::Path(path),
            _ => Source::StandardInput,
        }
    }
}

impl Source {
    // What the text is called. As a `Display` it would be no plainer: a notice lends the name.
    pub fn name(&self) -> &str
        ensures { result.now ≡ name_of self.now }
    {
        match self {
            Source::StandardInput => "standard input",
            Source::Path(path) => path.as_str(),
        }
    }
}

#[derive(Drop)]
pub struct Arguments {
    pub input: Source,
    // the path of the text that is written, if one is wanted
    pub output: Option<String>,
}

impl Arguments {
    // The arguments of this run.
    pub fn given(rt: &HostRuntime) -> anyhow::Result<Arguments> {
        let mut words = env::args(rt)?;
        let _ = words.next();
        let input = Source::from(words.next());
        let output = words.next();
        ensure!(words.next().is_none(), "usage: shorten [IN [OUT]]");
        Ok(Arguments { input, output })
    }
}
