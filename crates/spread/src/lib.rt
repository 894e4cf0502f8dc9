// Runs of events, and what is promised of them.
#![tactic(auto)]

ghost use Rattle.std.specs.Prelude.{◌≡◌, None};
ghost use Rattle.world.specs.Roster.{missing, unless};
ghost use Rattle.world.specs.World.{roster};
ghost use Rattle.spread.specs.Runs.{FirstUnknown, Ran};

use model::{Answer, Event, Holder};
use thiserror::Error;
use world::World;

// Why nothing was played: there is no room for so many answers, or the event at a place names somebody that is not set up.
#[derive(Clone, Copy, Debug, PartialEq, Eq, Error)]
pub enum RunError {
    #[error("no room for so many answers")]
    NoRoom,
    #[error("event {at} names somebody who is not set up")]
    Unknown { at: usize, who: Holder },
}

// The card or lock, unless it is set up.
fn unknown(world: &World, who: Holder) -> Option<Holder>
    ensures { result ≡ unless (roster world.now) who None }
{
    (!world.has(who)).then_some(who)
}

// The first of an event's card and lock that is not set up.
fn unknown_in(world: &World, event: Event) -> Option<Holder>
    ensures { result ≡ missing (roster world.now) event }
{
    match event {
        Event::Day(_) => None,
        Event::Bar(card) | Event::AtDesk(card) => unknown(world, Holder::Card(card)),
        Event::Visit { card, lock } | Event::Adversary { card, lock, .. } => {
            unknown(world, Holder::Card(card)).or_else(|| unknown(world, Holder::Lock(lock)))
        }
    }
}

// The place of the first event that names somebody unknown, and who it is.
pub fn first_unknown(world: &World, events: &[Event]) -> Option<(usize, Holder)>
    ensures { FirstUnknown (roster world.now) events.now result }
{
    events.iter().enumerate().find_map(|(at, event)| unknown_in(world, *event).map(|who| (at, who)))
}

// Plays events in order, and leaves in `answers`, which has to have room, what came of each. (The memory is lent: if this allocated, an error for want of it could stand for any answer.) Where an event names somebody that is not set up, nothing is played.
#[tactic(auto, using(crate::proofs::Runs::begins))]
pub fn run(world: &mut World, events: &[Event], answers: &mut Vec<Answer>) -> Result<(), RunError>
    ensures { Ran world.old events.now answers.old result world.new answers.new }
{
    if answers.capacity() < events.len() {
        return Err(RunError::NoRoom);
    }
    if let Some((at, who)) = first_unknown(world, events) {
        return Err(RunError::Unknown { at, who });
    }
    answers.clear();
    for event in events {
        let Ok(answer) = world.step(*event) else {
            unreachable();
        };
        answers.push_reserved(answer);
    }
    Ok(())
}
