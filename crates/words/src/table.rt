// The table of node forms: the name of each node and the kinds of its operands.
ghost use Rattle.std.specs.Prelude.{◌≡◌, Some, None, ◌≢◌};
ghost use Rattle.words.specs.declared.verb.Verb.{Verb as AnyVerb};
ghost use Rattle.words.specs.Table.{name_of, kinds_of};

use super::kind::Kind;
use super::verb::Verb;

// How a node is written: its first word, and then a word of each kind.
#[derive(Clone, Copy)]
struct NodeForm {
    verb: Verb,
    name: &'static [u8],
    kinds: &'static [Kind],
}

// The operands of arithmetic.
const THREE_REGISTERS: &[Kind] = &[Kind::RegisterWord, Kind::RegisterWord, Kind::RegisterWord];

// A row for each verb, at the verb's own place.
const NODES: [NodeForm; 14] = [
    NodeForm {
        verb: Verb::Set,
        name: b"set",
        kinds: &[Kind::RegisterWord, Kind::NumberWord],
    },
    NodeForm {
        verb: Verb::Mov,
        name: b"mov",
        kinds: &[Kind::RegisterWord, Kind::RegisterWord],
    },
    NodeForm {
        verb: Verb::Add,
        name: b"add",
        kinds: THREE_REGISTERS,
    },
    NodeForm {
        verb: Verb::Sub,
        name: b"sub",
        kinds: THREE_REGISTERS,
    },
    NodeForm {
        verb: Verb::Mul,
        name: b"mul",
        kinds: THREE_REGISTERS,
    },
    NodeForm {
        verb: Verb::Div,
        name: b"div",
        kinds: THREE_REGISTERS,
    },
    NodeForm {
        verb: Verb::Rem,
        name: b"rem",
        kinds: THREE_REGISTERS,
    },
    NodeForm {
        verb: Verb::Lt,
        name: b"lt",
        kinds: THREE_REGISTERS,
    },
    NodeForm {
        verb: Verb::Eq,
        name: b"eq",
        kinds: THREE_REGISTERS,
    },
    NodeForm {
        verb: Verb::Get,
        name: b"get",
        kinds: &[Kind::RegisterWord, Kind::SlotWord],
    },
    NodeForm {
        verb: Verb::Put,
        name: b"put",
        kinds: &[Kind::RegisterWord],
    },
    NodeForm {
        verb: Verb::Go,
        name: b"go",
        kinds: &[Kind::BlockWord],
    },
    NodeForm {
        verb: Verb::If,
        name: b"if",
        kinds: &[Kind::RegisterWord, Kind::BlockWord, Kind::BlockWord],
    },
    NodeForm {
        verb: Verb::End,
        name: b"end",
        kinds: &[Kind::RegisterWord],
    },
];

// The word that a node's line begins with. By the verb's place (`as`), since the rows stand in the order of the verbs; a
// search for the row would be no plainer, and a `match` for the name and one for the kinds would be two tables.
pub fn name(verb: Verb) -> &'static [u8]
    ensures { result.now ≡ name_of verb }
{
    NODES[verb as usize].name
}

// The kinds of the words that follow it.
pub fn kinds(verb: Verb) -> &'static [Kind]
    ensures { result.now ≡ kinds_of verb }
{
    NODES[verb as usize].kinds
}

// The verb with this name. No two have the same one.
pub fn find(word: &[u8]) -> Option<Verb>
    ensures finds { elim result [ Some v ↦ name_of v ≡ word.now | None ↦ ((v : AnyVerb) → name_of v ≢ word.now) ] }
    ensures distinct { (u v : AnyVerb) → name_of u ≡ name_of v → u ≡ v }
{
    NODES
        .iter()
        .find(|form| form.name == word)
        .map(|form| form.verb)
}
