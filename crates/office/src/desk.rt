// The desk. It bars cards one after the other; a barring's number is its place in that row, from 0 on. The list with number n is the row's first n
// barrings, so a list with a higher number has all that one with a lower number has.
ghost use Rattle.std.specs.Prelude.{◌≡◌, ◌≤◌, length, take, IfOk, vec_len, vec_capacity};
ghost use Rattle.office.specs.Desk.{Books, fresh, day_answer, day_after, bar_answer, barred_after, signed};

use faults::Fault;
use lists::is_listed;
use std::alloc::{AllocError, Global};
use std::marker::Model;

// The most barrings that a list holds.
const MOST: usize = 1024;

#[derive(Debug, Drop)]
pub struct Desk {
    day: u32,
    barred: Vec<u32>,
}

// Clauses see the day and the row of barrings. There is always room for as many as there may be.
impl Model for Desk {
    ghost Value = { Books };

    ghost view = { λ d. record { day = d.day; barred = d.barred.items } };

    ghost invariant = { λ d. (vec_len d.barred ≤ 1024) × (1024 ≤ vec_capacity d.barred) };
}

impl Desk {
    // Day 0, and nobody barred. All memory that the desk will ever want is taken here.
    pub fn new(heap: Global) -> Result<Desk, AllocError>
        ensures { IfOk result (λ d. d ≡ fresh) }
    {
        let barred = Vec::with_capacity(heap, MOST)?;
        Ok(Desk { day: 0, barred })
    }

    // The desk's day.
    pub fn day(&self) -> u32
        ensures day { result ≡ self.now.day }
        ensures few { length self.now.barred ≤ 1024 }
    {
        self.day
    }

    // The day moves on; it never goes back.
    pub fn set_day(&mut self, day: u32) -> Result<(), Fault>
        ensures answer { result ≡ day_answer day self.old.day }
        ensures day { self.new.day ≡ day_after day self.old.day }
        ensures barred { self.new.barred ≡ self.old.barred }
        ensures few { length self.new.barred ≤ 1024 }
    {
        if day < self.day {
            return Err(Fault::OutOfRange);
        }
        self.day = day;
        Ok(())
    }

    // Bars a card, and gives the barring's number. A card is barred once only.
    #[tactic(auto, unfolding(crate::specs::Desk::bar_answer, crate::specs::Desk::barred_after))]
    pub fn bar(&mut self, card: u32) -> Result<u32, Fault>
        ensures answer { result ≡ bar_answer card self.old.barred }
        ensures barred { self.new.barred ≡ barred_after card self.old.barred }
        ensures few { length self.new.barred ≤ 1024 }
        ensures day { self.new.day ≡ self.old.day }
    {
        let number = self.barred.len();
        if number >= MOST {
            return Err(Fault::ListFull);
        }
        if is_listed(&self.barred, card) {
            return Err(Fault::BarredAlready);
        }
        self.barred.push_reserved(card);
        Ok(number as u32)
    }

    // The newest list's number: how many barrings there are.
    pub fn newest(&self) -> u32
        ensures count { result ≡ length self.now.barred }
        ensures few { result ≤ 1024 }
    {
        self.barred.len() as u32
    }

    // Whether there ever was a list with this number. Number 0 is no list.
    #[tactic(auto, unfolding(crate::specs::Desk::signed))]
    pub fn has_signed(&self, number: u32) -> bool
        ensures signed { result ≡ signed number self.now.barred }
        ensures few { length self.now.barred ≤ 1024 }
    {
        number > 0 && number as usize <= self.barred.len()
    }

    // The barrings of the list with this number, lent; all that there are where the number is too high.
    pub fn list(&self, number: u32) -> &[u32]
        ensures barrings { result.now ≡ take number self.now.barred }
        ensures few { length result.now ≤ 1024 }
        ensures row { length self.now.barred ≤ 1024 }
    {
        let count = (number as usize).min(self.barred.len());
        &self.barred[..count]
    }
}
