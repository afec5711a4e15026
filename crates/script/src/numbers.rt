// That every number that a script sets has 32 bits, as a fact for proofs.
//
// The code's numbers have 32 bits by their type, and what a proof knows of a value by its type it knows where the code
// looks at it. So these functions look at every node, and do nothing.
ghost use Rattle.std.specs.List.{AllByRecursion};
ghost use Rattle.script.specs.Model.{program_of};
ghost use Rattle.script.specs.Run.{Fit, Fits};

use super::node::Middle;
use super::store::Script;

fn number_fits(node: Middle)
    ensures { Fit node }
{
    match node {
        Middle::Set { .. }
        | Middle::Mov { .. }
        | Middle::Compute { .. }
        | Middle::Get { .. }
        | Middle::Put { .. } => {}
    }
}

fn all_fit(nodes: &[Middle])
    ensures { AllByRecursion Fit nodes.now }
{
    for node in nodes {
        number_fits(*node);
    }
}

impl Script {
    // Every number that the script sets has 32 bits.
    pub fn numbers_fit(&self)
        ensures { Fits (program_of self.now) }
    {
        all_fit(self.middles.as_slice())
    }
}
