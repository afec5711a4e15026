// The line that tells of a text that is turned away.
ghost use Rattle.std.specs.Prelude.{◌≡◌, Some};
ghost use Rattle.tell.specs.Notices.{line_told, number_told, layer_told, expected_told, place_told, line_of, told, told_long};

use super::expected::expected;
use reader::fault::Fault;
use std::fmt;

// Why a text is turned away. An `Option<Fault>` would be no plainer: its `None` would read as if there were no reason.
#[derive(Clone, Copy, Debug, PartialEq, Eq)]
pub enum Reason {
    // it is longer than any script, and so was not read
    TooLong,
    // it has this fault
    Faulty(Fault),
    // it was turned away by whoever tells of it, who says all of this: the line, or 0 where the text was not read, the
    // number of the question, the layer that put it, what was expected, and the byte where the line begins
    Told {
        line: usize,
        number: u8,
        layer: &'static str,
        expected: &'static str,
        place: usize,
    },
}

// What is told of a text that is turned away.
#[derive(Clone, Copy, Debug, PartialEq, Eq)]
pub struct Notice<'a> {
    // what the text is called, as by its path
    pub name: &'a str,
    pub reason: Reason,
}

impl<'a> Notice<'a> {
    // What is told of a fault that was found by reading.
    pub fn of_fault(name: &'a str, fault: Fault) -> Notice<'a>
        ensures { line_of result ≡ told name.now fault }
    {
        Notice {
            name,
            reason: Reason::Faulty(fault),
        }
    }

    // What is told of a text that is longer than any script, and so was not read.
    pub fn too_long(name: &'a str) -> Notice<'a>
        ensures { line_of result ≡ told_long name.now }
    {
        Notice {
            name,
            reason: Reason::TooLong,
        }
    }

    // The line, from 1, or 0 where the text was not read at all: a number and no `Option`, since the 0 is printed.
    pub fn line(&self) -> usize
        ensures { result ≡ line_told self.now.reason }
    {
        match self.reason {
            Reason::TooLong => 0,
            Reason::Faulty(fault) => fault.line,
            Reason::Told { line, .. } => line,
        }
    }

    // The number of the question that was answered No. A number by a rule of the project, as that of a fault.
    pub fn number(&self) -> u8
        ensures { result ≡ number_told self.now.reason }
    {
        match self.reason {
            Reason::TooLong => 2,
            Reason::Faulty(fault) => fault.number(),
            Reason::Told { number, .. } => number,
        }
    }

    // The layer that put it.
    pub fn layer(&self) -> &'static str
        ensures { result.now ≡ layer_told self.now.reason }
    {
        match self.reason {
            Reason::TooLong => "bench",
            Reason::Faulty(fault) => fault.layer().name(),
            Reason::Told { layer, .. } => layer,
        }
    }

    // What would have been answered Yes.
    pub fn expected(&self) -> &'static str
        ensures { result.now ≡ expected_told self.now.reason }
    {
        match self.reason {
            Reason::TooLong => "expected a text of at most 16384 bytes",
            Reason::Faulty(fault) => expected(fault),
            Reason::Told { expected, .. } => expected,
        }
    }

    // The byte where the line begins, from 0, also where the text was not read.
    pub fn place(&self) -> usize
        ensures { result ≡ place_told self.now.reason }
    {
        match self.reason {
            Reason::TooLong => 0,
            Reason::Faulty(fault) => fault.place,
            Reason::Told { place, .. } => place,
        }
    }
}

impl fmt::Display for Notice<'_> {
    ghost output = { λ n. Some (line_of n) };

    fn fmt<W: fmt::Write>(&self, f: &mut fmt::Formatter<W>) -> fmt::Result {
        let name = self.name;
        let line = self.line();
        let number = self.number();
        let layer = self.layer();
        let expected = self.expected();
        let place = self.place();
        write!(
            f,
            "{name}:{line}: number {number} ({layer}): {expected} (byte {place})"
        )
    }
}
