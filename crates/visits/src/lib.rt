// What a card and a lock hold, how the newer list goes over when they meet, and when the lock opens.
#![tactic(auto)]

ghost use Rattle.std.specs.Prelude.{◌≡◌, ℕ};
ghost use Rattle.visits.specs.Exchange.{newer, heard, comes, decision};

use faults::{Fault, VisitEnd};
use lists::is_listed;
use std::marker::Model;

// A card's memory: the number of the list that it carries, 0 for none. Clauses see that number.
#[derive(Clone, Copy, Debug, PartialEq, Eq)]
pub struct Card {
    list: u32,
}

// A lock's memory: the number of the list that it decides by, 0 for none. Clauses see that number. It is no card, though it holds as much today: what is done with the two differs, and none may pass for the other.
#[derive(Clone, Copy, Debug, PartialEq, Eq)]
pub struct Lock {
    list: u32,
}

impl Model for Card {
    ghost Value = { ℕ };

    ghost view = { λ card. card.list };

    ghost inverse = { λ number. record { list = number } };
}

impl Model for Lock {
    ghost Value = { ℕ };

    ghost view = { λ lock. lock.list };

    ghost inverse = { λ number. record { list = number } };
}

impl Card {
    // A card with no list.
    pub fn new() -> Card
        ensures { result ≡ 0 }
    {
        Card { list: 0 }
    }

    // The number of the list that the card carries.
    pub fn list(self) -> u32
        ensures { result ≡ self }
    {
        self.list
    }

    // The card is given a list at the desk, whatever it had.
    pub fn take_list(&mut self, number: u32)
        ensures { self.new ≡ number }
    {
        self.list = number;
    }
}

impl Lock {
    // A lock with no list.
    pub fn new() -> Lock
        ensures { result ≡ 0 }
    {
        Lock { list: 0 }
    }

    // The number of the list that the lock decides by.
    pub fn list(self) -> u32
        ensures { result ≡ self }
    {
        self.list
    }

    // The lock hears a number said, and awaits a list if that is higher than its own. It takes the list that is given then only if it has the number that was said; any other list ends
    // nothing. Answers whether the visit comes to the lock's decision: not so where the lock awaits a list and none is given. (A plain yes or no: an enum of the two would say no more.)
    #[tactic(auto, unfolding(crate::specs::Exchange::heard, crate::specs::Exchange::comes))]
    pub fn hear(&mut self, says: u32, gives: Option<u32>) -> bool
        ensures answer { result ≡ comes self.old says gives }
        ensures memory { self.new ≡ heard self.old says gives }
    {
        if says <= self.list {
            return true;
        }
        let Some(number) = gives else {
            return false;
        };
        if number == says {
            self.list = number;
        }
        true
    }
}

// An honest card at a lock: whoever has the lower number takes the other's list.
pub fn exchange(card: &mut Card, lock: &mut Lock)
    ensures card { card.new ≡ newer card.old lock.old }
    ensures lock { lock.new ≡ newer card.old lock.old }
{
    let newest = card.list.max(lock.list);
    card.list = newest;
    lock.list = newest;
}

// The lock's decision on a card, by the barrings of its list as it is now.
#[tactic(auto, unfolding(crate::specs::Exchange::decision))]
pub fn decide(barrings: &[u32], card: u32) -> VisitEnd
    ensures { result ≡ decision card barrings.now }
{
    if is_listed(barrings, card) {
        VisitEnd::Refused(Fault::Barred)
    } else {
        VisitEnd::Opened
    }
}
