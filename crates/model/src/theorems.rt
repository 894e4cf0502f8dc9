// The theorems of the model, one function each: its contract is the theorem.
ghost use Rattle.model.specs.Promise.{Main, Once, Numbered};
ghost use Rattle.model.specs.Cases.{AsWorked};

// Every event of every run keeps the promise.
#[tactic(auto, using(crate::proofs::Promised::main))]
pub fn promise_stands()
    ensures { Main }
{}

// A card is barred once only.
pub fn once_stands()
    ensures { Once }
{}

// Barrings are numbered from 0 on, and only the desk makes them.
pub fn numbered_stands()
    ensures { Numbered }
{}

// The worked cases come out as they should.
#[tactic(auto, using(crate::proofs::Worked::as_worked))]
pub fn cases_stand()
    ensures { AsWorked }
{}
