// The room that the walks of a question work in.

ghost use Rattle.std.specs.Prelude.{◌≡◌, ◌<◌, ◌≤◌, List, [], ◌∷◌, ◌++◌, length, take, ℕ, if◌then◌else◌};
ghost use Rattle.rights.specs.work.Fronts.{list_length, Firsts};

use index::NAMES;
use std::marker::Model;

// A list has room for each name, and for one that is put at its end and may not stay.
const LIST: usize = NAMES + 1;

// Stands for the number of a record that has not been looked up; no good block has a record of this number.
pub(crate) const UNKNOWN: u16 = 65535;

// A list of names: the first `count` of `places`.
#[derive(Drop)]
pub struct Names {
    places: [u16; LIST],
    count: usize,
}

impl Model for Names {
    ghost Value = { List ℕ };

    ghost view = { λ l. take l.count l.places };

    ghost invariant = { λ l. l.count ≤ list_length };
}

impl Names {
    // No name.
    fn new() -> Names
        ensures { result ≡ [] }
    {
        Names {
            places: [0; LIST],
            count: 0,
        }
    }

    // The list has no name any more.
    pub(crate) fn clear(&mut self)
        ensures { self.new ≡ [] }
    {
        self.count = 0;
    }

    // The name is put at the end, and stays there or does not: there is no branch for the processor to guess.
    pub(crate) fn put(&mut self, name: u16, stays: bool)
        requires { length self.old < list_length }
        ensures { self.new ≡ (if stays then self.old ++ name ∷ [] else self.old) }
    {
        self.places[self.count] = name;
        self.count += stays as usize;
    }

    // The names.
    pub(crate) fn as_slice(&self) -> &[u16]
        ensures { result.now ≡ self.now }
    {
        &self.places[..self.count]
    }
}

// The names whose marks grew in a round, those that a round lists, and for each name the number of its first record, if that has been looked up.
#[derive(Drop)]
pub struct Room {
    pub grown: Names,
    pub next: Names,
    pub firsts: [u16; NAMES],
}

impl Room {
    // No name is listed, and no record has been looked up.
    pub(crate) fn new() -> Room
        ensures { (b : List ℕ) → Firsts b result.firsts }
    {
        Room {
            grown: Names::new(),
            next: Names::new(),
            firsts: [UNKNOWN; NAMES],
        }
    }
}
