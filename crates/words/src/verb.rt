// The first words of the node lines, and the arithmetic that seven of them name.
ghost use Rattle.std.specs.Prelude.{◌≡◌, ◌≢◌, MatchResult};
ghost use Rattle.script.specs.declared.node.Operation.{Operation as AnyOperation};
ghost use Rattle.words.specs.Forms.{verb_of};

use script::node::Operation;

// The first words, in the order of the table. The operations stand again among them: a variant that holds an `Operation`
// has no place by which a row of the table is found.
#[derive(Clone, Copy, Debug, PartialEq, Eq)]
pub enum Verb {
    Set,
    Mov,
    Add,
    Sub,
    Mul,
    Div,
    Rem,
    Lt,
    Eq,
    Get,
    Put,
    Go,
    If,
    End,
}

// A verb that names no arithmetic.
#[derive(Clone, Copy, Debug, PartialEq, Eq)]
pub struct NotArithmetic(pub Verb);

// The verb of an operation.
impl From<Operation> for Verb {
    ghost from_gives = { λ operation verb. verb ≡ verb_of operation };

    fn from(operation: Operation) -> Verb {
        match operation {
            Operation::Add => Verb::Add,
            Operation::Sub => Verb::Sub,
            Operation::Mul => Verb::Mul,
            Operation::Div => Verb::Div,
            Operation::Rem => Verb::Rem,
            Operation::Lt => Verb::Lt,
            Operation::Eq => Verb::Eq,
        }
    }
}

// The operation with this verb, if there is one.
impl TryFrom<Verb> for Operation {
    type Error = NotArithmetic;

    ghost try_from_gives = { λ verb r. MatchResult r (λ operation. verb_of operation ≡ verb)
        (λ e. (e.0 ≡ verb) × ((operation : AnyOperation) → verb_of operation ≢ verb)) };

    fn try_from(verb: Verb) -> Result<Operation, NotArithmetic> {
        match verb {
            Verb::Add => Ok(Operation::Add),
            Verb::Sub => Ok(Operation::Sub),
            Verb::Mul => Ok(Operation::Mul),
            Verb::Div => Ok(Operation::Div),
            Verb::Rem => Ok(Operation::Rem),
            Verb::Lt => Ok(Operation::Lt),
            Verb::Eq => Ok(Operation::Eq),
            _ => Err(NotArithmetic(verb)),
        }
    }
}
