// Why the program stopped before its end.
ghost use Rattle.shorten.specs.Loaded.{IsOther};

use std::error::Error;
use std::{fmt, io};
use tell::notice::Notice;

#[derive(Drop)]
pub enum Stop<'a> {
    // the text is no script
    Unread(Notice<'a>),
    // a file of this name could not be read or written
    File { name: &'a str, error: io::Error },
    // there was no memory, or a line could not be printed
    Other(anyhow::Error),
}

impl<E: Error> From<E> for Stop<'_> {
    ghost from_gives = { λ _ stop. IsOther stop };

    fn from(error: E) -> Self {
        Stop::Other(error.into())
    }
}

impl fmt::Display for Stop<'_> {
    fn fmt<W: fmt::Write>(&self, f: &mut fmt::Formatter<W>) -> fmt::Result {
        match self {
            Stop::Unread(notice) => write!(f, "{notice}"),
            Stop::File { name, error } => write!(f, "{name}: {error}"),
            Stop::Other(error) => write!(f, "{error}"),
        }
    }
}
