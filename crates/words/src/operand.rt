// Reads one word.
ghost use Rattle.std.specs.Prelude.{◌≡◌};
ghost use Rattle.words.specs.Words.{operand as operand_of};

use super::flaw::Flaw;
use super::kind::Kind;
use super::number::{signed, unsigned};
use script::limits::{MOST_BLOCKS, MOST_MIDDLES, REGISTERS, SLOTS};

// The number of a word of this kind, in a script of so many blocks.
pub fn operand(kind: Kind, blocks: u8, word: &[u8]) -> Result<i32, Flaw>
    ensures { result ≡ operand_of blocks kind word.now }
{
    match (kind, word) {
        (Kind::RegisterWord, [b'r', digits @ ..]) => unsigned(digits, 0..u64::from(REGISTERS)),
        (Kind::BlockWord, [b'b', digits @ ..]) => unsigned(digits, 0..u64::from(blocks)),
        (Kind::RegisterWord | Kind::BlockWord, _) => Err(Flaw::Form),
        (Kind::SlotWord, _) => unsigned(word, 0..u64::from(SLOTS)),
        (Kind::NumberWord, _) => signed(word),
        // `as`: u64 has no From<usize>, and a try_from would make an error that can't come.
        (Kind::SizeWord, _) => unsigned(word, 1..MOST_BLOCKS as u64 + 1),
        (Kind::CountWord, _) => unsigned(word, 0..MOST_MIDDLES as u64 + 1),
    }
}
