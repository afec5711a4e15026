// The kinds of words that stand for a number.
#[derive(Clone, Copy, Debug, PartialEq, Eq)]
pub enum Kind {
    // the letter r and a number below 16
    RegisterWord,
    // a number below 16
    SlotWord,
    // a signed number of 32 bits
    NumberWord,
    // the letter b and a number below the number of blocks
    BlockWord,
    // how many blocks a script has
    SizeWord,
    // how many middle nodes a block has
    CountWord,
}
