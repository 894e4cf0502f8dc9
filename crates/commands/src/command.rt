// A command of a script.
ghost use Rattle.std.specs.Prelude.{◌≡◌};
ghost use Rattle.commands.specs.Plays.{set_up_by, event_of};

use model::{Event, Holder};

// A command as it stands on its line. A thief that says nothing of a list and one that `says 0` play the same event, and yet the two are kept apart here, so that each command is written in one way only. `Lock` and `Card` are
// apart, and no one variant with a holder, since each variant is a word of the script.
#[derive(Clone, Copy, Debug, PartialEq, Eq)]
pub enum Command {
    Lock(u16),
    Card(u16),
    Day(u32),
    Bar(u16),
    Desk(u16),
    Visit {
        card: u16,
        lock: u16,
    },
    Thief {
        card: u16,
        lock: u16,
        says: Option<u32>,
        gives: Option<u32>,
    },
}

impl Command {
    // The card or the lock that the command sets up, if it does.
    pub fn set_up(self) -> Option<Holder>
        ensures { result ≡ set_up_by self }
    {
        match self {
            Command::Lock(lock) => Some(Holder::Lock(lock)),
            Command::Card(card) => Some(Holder::Card(card)),
            _ => None,
        }
    }

    // What the command plays: nothing, where it sets up a card or a lock.
    pub fn event(self) -> Option<Event>
        ensures { result ≡ event_of self }
    {
        match self {
            Command::Lock(_) | Command::Card(_) => None,
            Command::Day(day) => Some(Event::Day(day)),
            Command::Bar(card) => Some(Event::Bar(card)),
            Command::Desk(card) => Some(Event::AtDesk(card)),
            Command::Visit { card, lock } => Some(Event::Visit { card, lock }),
            Command::Thief {
                card,
                lock,
                says,
                gives,
            } => Some(Event::Adversary {
                card,
                lock,
                says: says.unwrap_or(0),
                gives,
            }),
        }
    }
}
