// What can be wrong with a line, and how it is said.
ghost use Rattle.std.specs.Prelude.{Some};
ghost use Rattle.words.specs.Shown.{phrase};

use std::error::Error;
use std::fmt;

#[derive(Clone, Copy, Debug, PartialEq, Eq)]
pub enum Wrong {
    UnknownCommand,
    MissingWord,
    UnexpectedWord,
    // of a card or a lock
    NotAnId,
    // of a day or a list
    NotANumber,
    NoSuchCard(u16),
    NoSuchLock(u16),
    SetUpAlready,
    NoNewline,
    Empty,
}

// By hand, since contracts read what is printed, the `output`.
impl fmt::Display for Wrong {
    ghost output = { λ w. Some (phrase w) };

    fn fmt<W: fmt::Write>(&self, f: &mut fmt::Formatter<W>) -> fmt::Result {
        match *self {
            Wrong::UnknownCommand => write!(f, "unknown command"),
            Wrong::MissingWord => write!(f, "a word is missing"),
            Wrong::UnexpectedWord => write!(f, "a word too many"),
            Wrong::NotAnId => write!(f, "not a number from 1 to 65535"),
            Wrong::NotANumber => write!(f, "not a number from 0 to 4294967295"),
            Wrong::NoSuchCard(card) => write!(f, "no card {card} is set up above"),
            Wrong::NoSuchLock(lock) => write!(f, "no lock {lock} is set up above"),
            Wrong::SetUpAlready => write!(f, "set up already"),
            Wrong::NoNewline => write!(f, "no newline at the end"),
            Wrong::Empty => write!(f, "no command"),
        }
    }
}

impl Error for Wrong {}
