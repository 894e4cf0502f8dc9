// What can happen in the valley, and what comes of it. specs/Promise.antt has what is promised of every run.
#![tactic(auto)]

pub mod theorems;

use faults::{Fault, VisitEnd};

// Whoever holds a list: a card or a lock, by its number.
#[derive(Clone, Copy, Debug, PartialEq, Eq)]
pub enum Holder {
    Card(u16),
    Lock(u16),
}

// The desk's day moves on; the desk bars a card; a card is at the desk and is given the newest list; an honest card is at a lock; an adversary is at a lock with a card, says that it has a list of some
// number, gives a list that was once signed or none, and takes nothing.
#[derive(Clone, Copy, Debug, PartialEq, Eq)]
pub enum Event {
    Day(u32),
    Bar(u16),
    AtDesk(u16),
    Visit {
        card: u16,
        lock: u16,
    },
    Adversary {
        card: u16,
        lock: u16,
        says: u32,
        gives: Option<u32>,
    },
}

// What comes of an event.
#[derive(Clone, Copy, Debug, PartialEq, Eq)]
pub enum Answer {
    // the day is the desk's now
    Today,
    // the card is barred, and this is the barring's number
    Barring(u32),
    // the card is given the list with this number
    Given(u32),
    // the desk refused, and nothing has changed
    Refused(Fault),
    // the lock decided
    Decided(VisitEnd),
    // the adversary stopped before the lock had what it awaits, and nothing has changed
    BrokenOff,
    // the adversary has no such list, since none with its number was ever signed, and nothing has changed
    NoList,
}
