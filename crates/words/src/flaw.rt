// What is wrong with the words of a line.
#[derive(Clone, Copy, Debug, PartialEq, Eq)]
pub enum Flaw {
    // they have not the form that is due
    Form,
    // they have it, and a number is out of range
    Range,
}
