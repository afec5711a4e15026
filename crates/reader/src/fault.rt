// What is wrong with a text: the first question that was answered No, and where.
ghost use Rattle.std.specs.Prelude.{◌≡◌, Some};
ghost use Rattle.reader.specs.Faults.{number_of, layer_of, layer_name};

use std::fmt;
use words::flaw::Flaw;

// The questions that are put to a text.
#[derive(Clone, Copy, Debug, PartialEq, Eq)]
pub enum Question {
    // Does the line end with a line feed?
    Feed,
    // Have its words the form due there? Are its numbers in range?
    Words(Flaw),
    // Do the counts so far come to at most 512?
    Total,
    // Does the text end after the last line due?
    Finish,
}

// The layer that puts a question.
#[derive(Clone, Copy, Debug, PartialEq, Eq)]
pub enum Layer {
    Line,
    Word,
    Contents,
}

impl Layer {
    // Its name, as people are told of it.
    pub fn name(self) -> &'static str
        ensures { result.now ≡ layer_name self }
    {
        match self {
            Layer::Line => "line",
            Layer::Word => "word",
            Layer::Contents => "contents",
        }
    }
}

impl fmt::Display for Layer {
    ghost output = { λ l. Some (layer_name l) };

    fn fmt<W: fmt::Write>(&self, f: &mut fmt::Formatter<W>) -> fmt::Result {
        f.write_str(self.name())
    }
}

// The line that was due where a question was put.
#[derive(Clone, Copy, Debug, PartialEq, Eq)]
pub enum Due {
    // `blocks N`
    Header,
    // `bI C`
    Count,
    // the line of a middle node
    MiddleNode,
    // the line of a last node
    LastNode,
    // No line: the text is to end. A name of its own, since this is told of beside the others; an `Option<Due>` around
    // them would be no plainer.
    Nothing,
}

#[derive(Clone, Copy, Debug, PartialEq, Eq)]
pub struct Fault {
    pub question: Question,
    // what was expected
    pub due: Due,
    // the line, from 1
    pub line: usize,
    // the byte where that line begins, from 0
    pub place: usize,
}

impl Fault {
    // The number of the fault, from 3 to 7. A number by a rule of the project: people and the pages know a fault by it.
    pub fn number(&self) -> u8
        ensures { result ≡ number_of self.now.question }
    {
        match self.question {
            Question::Feed => 3,
            Question::Words(Flaw::Form) => 4,
            Question::Words(Flaw::Range) => 5,
            Question::Total => 6,
            Question::Finish => 7,
        }
    }

    // The layer that found it.
    pub fn layer(&self) -> Layer
        ensures { result ≡ layer_of self.now.question }
    {
        match self.question {
            Question::Feed => Layer::Line,
            Question::Words(_) => Layer::Word,
            Question::Total => Layer::Contents,
            Question::Finish => Layer::Contents,
        }
    }
}
