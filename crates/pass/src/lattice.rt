// Lattices of facts. Nothing here knows in which direction a pass goes.
ghost use Rattle.std.specs.Prelude.{◌≡◌, ℕ, Bool};
ghost use Rattle.pass.specs.Lattices.{LatticeLaws};

pub trait Lattice {
    // A plain record, which can lie in memory that a caller lends.
    type Fact: Copy;

    // Which of these records are facts.
    ghost valid: { Self → Self.Fact → Type 0 };

    // The order: the first fact is at least as cautious as the second.
    ghost cautious: { Self → Self.Fact → Self.Fact → Type 0 };

    // A whole number that falls whenever a join differs.
    ghost rank: { Self → Self.Fact → ℕ };

    // What `start` answers.
    ghost origin: { Self → Self.Fact };

    // What `join` answers.
    ghost joined: { Self → Self.Fact → Self.Fact → Self.Fact × Bool };

    fn start(&self) -> Self::Fact
        ensures { result ≡ origin self.now };

    // The joined fact, and whether it differs from the old one. An `Option` of a fact that differs would be no plainer: a pair
    // would put the old fact of one half back where only the other differs.
    fn join(&self, old: Self::Fact, new: Self::Fact) -> (Self::Fact, bool)
        ensures { result ≡ joined self.now old new };

    // The members one by one: a definition over the trait's own record of them would import the trait, which imports it.
    ghost lawful: { (p : Self) → LatticeLaws (valid p) (cautious p) (rank p) (origin p) (joined p) };
}
