// Up to 4,096 values, one behind another: in lent places, so that none is copied, and in no `Vec`,
// since the library allocates nothing.
ghost use Rattle.std.specs.Prelude.{◌≡◌, ◌<◌, ◌≤◌, [], ◌∷◌, ◌++◌, length};

use std::marker::Model;

#[derive(Drop)]
pub(crate) struct Filled<'a, T> {
    places: &'a mut [T],
    count: usize,
}

impl<'a, T> Model for Filled<'a, T> {
    ghost use Rattle.std.specs.Prelude.{◌≡◌, ◌≤◌, List, length, take};

    ghost Value = { List T };

    ghost view = { λ f. take f.count f.places.now };

    ghost invariant = { λ f. (f.count ≤ 4096) × (length f.places.now ≡ 4096) };
}

impl<'a, T: Copy> Filled<'a, T> {
    // None, where what the places hold is not looked at.
    pub(crate) fn new(places: &'a mut [T]) -> Filled<'a, T>
        requires { length places.old ≡ 4096 }
        ensures { result ≡ [] }
    {
        Filled { places, count: 0 }
    }

    pub(crate) fn len(&self) -> usize
        ensures { (result ≡ length self.now) × (result ≤ 4096) }
    {
        self.count
    }

    pub(crate) fn push(&mut self, value: T)
        requires { length self.old < 4096 }
        ensures { self.new ≡ self.old ++ value ∷ [] }
    {
        self.places[self.count] = value;
        self.count += 1;
    }

    pub(crate) fn as_slice(&self) -> &[T]
        ensures { result.now ≡ self.now }
    {
        &self.places[..self.count]
    }
}
