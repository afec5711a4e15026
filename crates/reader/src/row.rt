// A row in places that are lent.
ghost use Rattle.std.specs.Prelude.{◌≡◌, ◌<◌, ◌≤◌, [], ◌∷◌, ◌++◌, length};

use std::marker::Model;

// The places that are filled, from the first on: a clause sees the list of what was put there. They are lent, so an array for
// them is made once and stays where it is. A vector that holds its places itself (`ArrayVec`) is made as a value, and is zeroed
// and copied on its way to where it stays. N is how many places there are. `places` is a slice, since of an array of any T the
// check would ask that it be small enough.
#[derive(Drop)]
pub(crate) struct Row<'a, T, const N: usize> {
    places: &'a mut [T],
    filled: usize,
}

impl<'a, T, const N: usize> Model for Row<'a, T, N> {
    ghost use Rattle.std.specs.Prelude.{◌≡◌, ◌≤◌, List, length, take};

    ghost Value = { List T };

    ghost view = { λ r. take r.filled r.places.now };

    ghost invariant = { λ r. (r.filled ≤ N) × (length r.places.now ≡ N) };
}

impl<'a, T: Copy, const N: usize> Row<'a, T, N> {
    // With nothing in it yet.
    pub(crate) fn new(places: &'a mut [T]) -> Self
        requires { length places.old ≡ N }
        ensures { result ≡ [] }
    {
        Row { places, filled: 0 }
    }

    // How many are in it.
    pub(crate) fn len(&self) -> usize
        ensures { result ≡ length self.now }
    {
        self.filled
    }

    // What is in it.
    pub(crate) fn as_slice(&self) -> &[T]
        ensures value { result.now ≡ self.now }
        ensures fits { length result.now ≤ N }
    {
        &self.places[..self.filled]
    }

    // Puts one more at its end.
    pub(crate) fn push(&mut self, item: T)
        requires { length self.old < N }
        ensures { self.new ≡ self.old ++ item ∷ [] }
    {
        self.places[self.filled] = item;
        self.filled += 1;
    }
}
