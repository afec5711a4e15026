// Reads the lines before the bodies, each without its line feed.
ghost use Rattle.std.specs.Prelude.{◌≡◌, ◌<◌, cond, [], ◌∷◌, Err, decimal, option_map};
ghost use Rattle.std.specs.Str.{bytes_eq};
ghost use Rattle.script.specs.Limits.{most_blocks};
ghost use Rattle.words.specs.Words.{operands};
ghost use Rattle.words.specs.Forms.{header_row, contents_row, made_by, line_as};
ghost use Rattle.words.specs.declared.flaw.Flaw.TheVariants.{Form};

use script::limits::MOST_BLOCKS;
use words::flaw::Flaw;
use words::kind::Kind;
use words::line::{cut, one_number};
use words::operand::operand;

const BLOCKS: &[u8] = b"blocks";

// The one number of this kind after a first word, if that word is the one due. A flag, since each of the two lines tests its
// word in its own way, and a test handed over as a closure would be no plainer.
fn numbered(named: bool, kind: Kind, rest: Option<&[u8]>) -> Result<u32, Flaw>
    ensures { result ≡ cond named (made_by (contents_row 0) (operands 0 (kind ∷ []) (option_map (λ x. x.now) rest.entry))) (Err Form) }
{
    if named {
        one_number(kind, rest)
    } else {
        Err(Flaw::Form)
    }
}

// `blocks N`
pub(crate) fn header(line: &[u8]) -> Result<u32, Flaw>
    ensures { result ≡ line_as 0 (header_row ∷ []) line.now }
{
    let (first, rest) = cut(line, b' ');
    numbered(first == BLOCKS, Kind::SizeWord, rest)
}

// Whether a word is the name of block i. The three functions that i passes through ask in a clause that it is below 64: a
// type for one number would be no plainer.
fn names_block(word: &[u8], i: u8) -> bool
    requires { i < most_blocks }
    ensures { result ≡ bytes_eq word.now (98 ∷ decimal i) }
{
    // `as`: a try_from of this constant, 64, would make an error that can't come.
    operand(Kind::BlockWord, MOST_BLOCKS as u8, word).is_ok_and(|x| x == i32::from(i))
}

// `bI C`
pub(crate) fn count(i: u8, line: &[u8]) -> Result<u32, Flaw>
    requires { i < most_blocks }
    ensures { result ≡ line_as 0 (contents_row i ∷ []) line.now }
{
    let (first, rest) = cut(line, b' ');
    numbered(names_block(first, i), Kind::CountWord, rest)
}
