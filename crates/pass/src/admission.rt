// Which files a pair admits, said of the pair's own impl.
ghost use Rattle.pass.specs.Admission.{AdmitsBoth};

use crate::forward::ForwardPass;
use crate::pair::Pair;

impl<A: ForwardPass, B: ForwardPass> Pair<A, B> {
    // Does nothing: its promise is that a pair admits exactly the files that both halves admit.
    pub fn admits_both(&self)
        ensures { AdmitsBoth A.admits B.admits ⟦<Pair<A, B> as ForwardPass>⟧.admits self.now }
    {}
}
