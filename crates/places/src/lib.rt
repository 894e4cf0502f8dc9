// A map from numbers of 16 bits, as those of cards and locks: a place for each number up to the highest that has something, and a few more, so that a look-up is one step however many there are.
#![tactic(auto)]

ghost use Rattle.std.specs.Prelude.{◌≡◌, ◌≤◌, [], length, MatchOption};
ghost use Rattle.places.specs.Places.{at, Put, Inserted};

use std::alloc::{AllocError, Global};
use std::marker::Model;

#[derive(Debug, Drop)]
pub struct Places<T> {
    items: Vec<Option<T>>,
}

// Clauses see the places in order.
impl<T> Model for Places<T> {
    ghost use Rattle.std.specs.Prelude.{◌≤◌, List, Option, vec_len};

    ghost Value = { List (Option T) };

    ghost view = { λ p. p.items.items };

    ghost invariant = { λ p. vec_len p.items ≤ 65536 };
}

impl<T: Copy> Places<T> {
    // Nothing anywhere yet, and no memory taken: it grows as it is filled.
    pub fn new(heap: Global) -> Places<T>
        ensures { result ≡ [] }
    {
        Places {
            items: Vec::new(heap),
        }
    }

    // What stands at a number.
    pub fn get(&self, number: u16) -> Option<T>
        ensures value { result ≡ at self.now number }
        ensures few { length self.now ≤ 65536 }
    {
        self.items.get(usize::from(number)).copied().flatten()
    }

    // Puts an item at a number, in the place of what stood there. It fails only for want of memory, and never where something stood there.
    pub fn insert(&mut self, number: u16, item: T) -> Result<(), AllocError>
        ensures places { Inserted self.old number item result self.new }
        ensures few { length self.new ≤ 65536 }
    {
        let place = usize::from(number);
        if self.items.len() <= place {
            // Some places at a time, for numbers that come in order.
            self.items.resize(place / 64 * 64 + 64, None)?;
        }
        self.items[place] = Some(item);
        Ok(())
    }

    // Puts an item in the place of the one that stands at a number; where none stands, nothing is changed.
    pub fn replace(&mut self, number: u16, item: T)
        ensures places { MatchOption (at self.old number) (self.new ≡ self.old) (λ _. Put self.old number item self.new) }
        ensures few { length self.new ≤ 65536 }
    {
        if self.get(number).is_some() {
            self.items[usize::from(number)] = Some(item);
        }
    }
}
