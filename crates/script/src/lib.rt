// A whole script: every line is read before anything is played, and a faulty script is refused at its first faulty line.
#![tactic(auto)]

ghost use Rattle.std.specs.Prelude.{◌≡◌, [], ◌∷◌, ◌++◌, MatchResult};
ghost use Rattle.script.specs.Setup.{holders_of, events_of, is_new, known, checked, command_on};
ghost use Rattle.script.specs.declared.ScriptError.TheVariants.{Faulty, NoMemory};
ghost use Rattle.script.specs.Scripts.{Is, script_of, ScriptLaw};

use commands::Command;
use model::{Event, Holder};
use roster::Roster;
use std::alloc::{AllocError, Global};
use std::marker::Model;
use words::Wrong;
use words::cut::bare;

mod roster;
mod shown;
pub mod texts;

pub use texts::{LockLine, Outcome, report};

// What is wrong, and with which line.
#[derive(Clone, Copy, Debug, PartialEq, Eq)]
pub struct LineFault {
    pub line: usize,
    pub wrong: Wrong,
}

#[derive(Clone, Copy, Debug, PartialEq, Eq)]
pub enum ScriptError {
    Faulty(LineFault),
    NoMemory,
}

// Both conversions by hand, since the contract of `read` says which error a `?` makes.
impl From<LineFault> for ScriptError {
    ghost from_gives = { λ fault e. e ≡ Faulty fault };

    fn from(fault: LineFault) -> ScriptError {
        ScriptError::Faulty(fault)
    }
}

impl From<AllocError> for ScriptError {
    ghost from_gives = { λ _ e. e ≡ NoMemory };

    fn from(_: AllocError) -> ScriptError {
        ScriptError::NoMemory
    }
}

// A script is seen as its commands. Kept with them, in the same order, are the cards and the locks that they set up and the events that they play, since a world and a run take slices of these; and a roster,
// since each line asks it who is set up.
#[derive(Debug, Drop)]
pub struct Script {
    commands: Vec<Command>,
    holders: Vec<Holder>,
    events: Vec<Event>,
    roster: Roster,
}

impl Model for Script {
    ghost use Rattle.std.specs.Prelude.{◌≡◌, List};
    ghost use Rattle.commands.specs.declared.command.Command.{Command};
    ghost use Rattle.script.specs.Setup.{holders_of, events_of};
    ghost use Rattle.script.specs.Roster.{Lists};

    ghost Value = { List Command };

    ghost view = { λ s. s.commands.items };

    ghost invariant = { λ s. (s.holders.items ≡ holders_of s.commands.items) × (s.events.items ≡ events_of s.commands.items) × Lists s.roster (holders_of s.commands.items) };
}

impl Script {
    fn new(heap: Global) -> Self
        ensures { result ≡ [] }
    {
        Script {
            commands: Vec::new(heap),
            holders: Vec::new(heap),
            events: Vec::new(heap),
            roster: Roster::new(heap),
        }
    }

    pub fn commands(&self) -> &[Command]
        ensures { result.now ≡ self.now }
    {
        self.commands.as_slice()
    }

    // The cards and the locks that are set up, in order.
    pub fn holders(&self) -> &[Holder]
        ensures { result.now ≡ holders_of self.now }
    {
        self.holders.as_slice()
    }

    // The events that are played, in order.
    pub fn events(&self) -> &[Event]
        ensures { result.now ≡ events_of self.now }
    {
        self.events.as_slice()
    }

    fn is_new(&self, holder: Holder) -> Result<(), Wrong>
        ensures { result ≡ is_new (holders_of self.now) holder }
    {
        if self.roster.has(holder) {
            return Err(Wrong::SetUpAlready);
        }
        Ok(())
    }

    fn knows(&self, holder: Holder) -> Result<(), Wrong>
        ensures { result ≡ known (holders_of self.now) holder }
    {
        if self.roster.has(holder) {
            return Ok(());
        }
        Err(match holder {
            Holder::Card(card) => Wrong::NoSuchCard(card),
            Holder::Lock(lock) => Wrong::NoSuchLock(lock),
        })
    }

    // A card or a lock is set up once, and before it is named.
    fn check(&self, command: Command) -> Result<(), Wrong>
        ensures { result ≡ checked (holders_of self.now) command }
    {
        match command {
            Command::Lock(lock) => self.is_new(Holder::Lock(lock)),
            Command::Card(card) => self.is_new(Holder::Card(card)),
            Command::Day(_) => Ok(()),
            Command::Bar(card) | Command::Desk(card) => self.knows(Holder::Card(card)),
            Command::Visit { card, lock } | Command::Thief { card, lock, .. } => {
                self.knows(Holder::Card(card))?;
                self.knows(Holder::Lock(lock))
            }
        }
    }

    // The command on a line, if it has one, after the commands so far.
    fn command_on(&self, line: &[u8]) -> Result<Option<Command>, Wrong>
        ensures { result ≡ command_on (holders_of self.now) line.now }
    {
        let text = bare(line);
        if text.is_empty() {
            return Ok(None);
        }
        let command = Command::try_from(text)?;
        self.check(command)?;
        Ok(Some(command))
    }

    // One command more. All memory is taken first, so that want of it leaves the script as it was.
    fn add(&mut self, command: Command) -> Result<(), AllocError>
        ensures { MatchResult result (λ _. self.new ≡ self.old ++ command ∷ []) (λ _. self.new ≡ self.old) }
    {
        self.commands.reserve(1)?;
        self.holders.reserve(1)?;
        self.events.reserve(1)?;
        if let Some(holder) = command.set_up() {
            self.roster.add(holder)?;
            self.holders.push_reserved(holder);
        }
        if let Some(event) = command.event() {
            self.events.push_reserved(event);
        }
        self.commands.push_reserved(command);
        Ok(())
    }
}

// The whole script, or the first line that is wrong.
pub fn read(heap: Global, text: &[u8]) -> Result<Script, ScriptError>
    ensures value { Is (script_of text.now) result }
    ensures law { ScriptLaw text.now result }
{
    let mut script = Script::new(heap);
    // `enumerate` says how many lines are above, and lines are counted from 1.
    for (above, row) in text.split_inclusive(|byte| *byte == b'\n').enumerate() {
        let line = above + 1;
        let [front @ .., b'\n'] = row else {
            let wrong = Wrong::NoNewline;
            return Err(LineFault { line, wrong }.into());
        };
        let said = script
            .command_on(front)
            .map_err(|wrong| LineFault { line, wrong })?;
        if let Some(command) = said {
            script.add(command)?;
        }
    }
    if script.commands().is_empty() {
        let wrong = Wrong::Empty;
        return Err(LineFault { line: 1, wrong }.into());
    }
    Ok(script)
}
