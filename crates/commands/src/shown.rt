// A command as it is written.
ghost use Rattle.std.specs.Prelude.{Some};
ghost use Rattle.commands.specs.Commands.{optional, written};

use crate::command::Command;
use std::fmt;

// A key word and the number after it, or nothing.
#[derive(Clone, Copy, Debug)]
struct Choice(&'static str, Option<u32>);

// Both by hand, since a derived `Display` has no contract.
impl fmt::Display for Choice {
    ghost output = { λ x. Some (optional x.0.now x.1) };

    fn fmt<W: fmt::Write>(&self, f: &mut fmt::Formatter<W>) -> fmt::Result {
        let Choice(key, Some(number)) = *self else {
            return Ok(());
        };
        write!(f, "{key}{number}")
    }
}

// A command as it is written in a script.
impl fmt::Display for Command {
    ghost output = { λ k. Some (written k) };

    fn fmt<W: fmt::Write>(&self, f: &mut fmt::Formatter<W>) -> fmt::Result {
        match *self {
            Command::Lock(lock) => write!(f, "lock {lock}"),
            Command::Card(card) => write!(f, "card {card}"),
            Command::Day(day) => write!(f, "day {day}"),
            Command::Bar(card) => write!(f, "bar {card}"),
            Command::Desk(card) => write!(f, "desk {card}"),
            Command::Visit { card, lock } => write!(f, "visit {card} {lock}"),
            Command::Thief {
                card,
                lock,
                says,
                gives,
            } => {
                let says = Choice(" says ", says);
                let gives = Choice(" gives ", gives);
                write!(f, "thief {card} {lock}{says}{gives}")
            }
        }
    }
}
