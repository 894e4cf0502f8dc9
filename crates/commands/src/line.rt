// One line of a script.
ghost use Rattle.std.specs.Prelude.{◌≡◌};
ghost use Rattle.words.specs.Words.{left, with, words_of};
ghost use Rattle.commands.specs.Commands.{visit_from, thief_from, command_from, parsed, Read};

use crate::command::Command;
use words::{Words, Wrong};

fn thief(words: &mut Words) -> Result<Command, Wrong>
    ensures { with result (left words.new) ≡ thief_from (left words.old) }
{
    Ok(Command::Thief {
        card: words.id()?,
        lock: words.id()?,
        says: words.option(b"says")?,
        gives: words.option(b"gives")?,
    })
}

fn visit(words: &mut Words) -> Result<Command, Wrong>
    ensures { with result (left words.new) ≡ visit_from (left words.old) }
{
    Ok(Command::Visit {
        card: words.id()?,
        lock: words.id()?,
    })
}

fn command_of(name: &[u8], words: &mut Words) -> Result<Command, Wrong>
    ensures { with result (left words.new) ≡ command_from name.now (left words.old) }
{
    match name {
        b"lock" => Ok(Command::Lock(words.id()?)),
        b"card" => Ok(Command::Card(words.id()?)),
        b"day" => Ok(Command::Day(words.number()?)),
        b"bar" => Ok(Command::Bar(words.id()?)),
        b"desk" => Ok(Command::Desk(words.id()?)),
        b"visit" => visit(words),
        b"thief" => thief(words),
        _ => Err(Wrong::UnknownCommand),
    }
}

// The command on a line that has neither a comment nor blanks around it.
impl<'a> TryFrom<&'a [u8]> for Command {
    type Error = Wrong;

    ghost try_from_gives = { λ line r. (r ≡ parsed (words_of line.now)) × Read line.now r };

    #[tactic(auto, using(crate::proofs::Spelt::read_law))]
    fn try_from(line: &'a [u8]) -> Result<Command, Wrong> {
        let mut words = Words::new(line);
        let name = words.next()?;
        let command = command_of(name, &mut words)?;
        words.end()?;
        Ok(command)
    }
}
