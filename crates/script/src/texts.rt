// The texts that a valley prints: what came of a command, and what a lock has.
ghost use Rattle.std.specs.Prelude.{◌≡◌, Some, IfOk, string_bytes};
ghost use Rattle.script.specs.Texts.{outcome_text, report_text, bars_text, lock_text};

use commands::Command;
use faults::VisitEnd;
use model::Answer;
use std::alloc::{AllocError, Global};
use std::fmt;

// What came of a command. No answer: a card or a lock is set up.
#[derive(Clone, Copy, Debug, PartialEq, Eq)]
pub struct Outcome(pub Option<Answer>);

// By hand here and below, since a derived `Display` has no contract. A fault is printed as its number, which is said here and not by a `Display` of its own: elsewhere it may want words.
impl fmt::Display for Outcome {
    ghost output = { λ x. Some (outcome_text x.0) };

    fn fmt<W: fmt::Write>(&self, f: &mut fmt::Formatter<W>) -> fmt::Result {
        let Some(answer) = self.0 else {
            return write!(f, "ready");
        };
        match answer {
            Answer::Today => write!(f, "today"),
            Answer::Barring(number) => write!(f, "barring {number}"),
            Answer::Given(number) => write!(f, "list {number}"),
            Answer::Refused(fault) => {
                let number = u8::from(fault);
                write!(f, "refused {number}")
            }
            Answer::Decided(VisitEnd::Opened) => write!(f, "opened"),
            Answer::Decided(VisitEnd::Refused(fault)) => {
                let number = u8::from(fault);
                write!(f, "turned away {number}")
            }
            Answer::BrokenOff => write!(f, "broken off"),
            Answer::NoList => write!(f, "no list"),
        }
    }
}

// A line for each command: the command as it is written, and what came of it, by the answers to its events in order.
pub fn report(heap: Global, commands: &[Command], answers: &[Answer]) -> Result<String, AllocError>
    ensures { IfOk result (λ s. string_bytes s ≡ report_text commands.now answers.now) }
{
    let mut text = String::new(heap);
    let mut rest = answers.iter();
    for command in commands {
        // A match, and no `and_then`: of a closure that takes from the answers its callers learn nothing, and the proof didn't close.
        let answer = match command.event() {
            None => None,
            Some(_) => rest.next().copied(),
        };
        let came = Outcome(answer);
        writeln!(text, "{command}: {came}")?;
    }
    Ok(text)
}

// The cards that a list bars, in order.
#[derive(Clone, Copy, Debug)]
struct Bars<'a>(&'a [u32]);

impl<'a> fmt::Display for Bars<'a> {
    ghost output = { λ x. Some (bars_text x.0.now) };

    fn fmt<W: fmt::Write>(&self, f: &mut fmt::Formatter<W>) -> fmt::Result {
        let cards = self.0;
        if cards.is_empty() {
            return write!(f, " none");
        }
        for card in cards {
            write!(f, " {card}")?;
        }
        Ok(())
    }
}

// What a lock has: the number of its list, and the cards that the list bars.
#[derive(Clone, Copy, Debug, PartialEq, Eq)]
pub struct LockLine<'a> {
    pub lock: u16,
    pub list: u32,
    pub barrings: &'a [u32],
}

impl<'a> fmt::Display for LockLine<'a> {
    ghost output = { λ x. Some (lock_text x.lock x.list x.barrings.now) };

    fn fmt<W: fmt::Write>(&self, f: &mut fmt::Formatter<W>) -> fmt::Result {
        let LockLine {
            lock,
            list,
            barrings,
        } = *self;
        let bars = Bars(barrings);
        write!(f, "lock {lock}: list {list}, bars{bars}")
    }
}
