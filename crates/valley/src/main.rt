// Plays a script of barrings and visits, and prints what came of each line.
#![tactic(auto)]

use model::Holder;
use script::{LockLine, ScriptError, read, report};
use spread::{RunError, run};
use std::alloc::{AllocError, Global};
use std::io::Read;
use std::process::ExitCode;
use std::rt::{Env, Files};
use std::{env, fs, io};
use thiserror::Error;
use world::World;

const HELP: &str = "\
usage: valley [SCRIPT]

Plays a script of barrings and visits over a valley of locks, and prints what came of each line
and, at the end, which cards each lock bars. The script is read from the file SCRIPT, or from
standard input where none is named. A faulty script is refused with the line's number and what
is wrong with it, and nothing of it is played.

  lock L                          there is a lock with this number, from 1 to 65535
  card C                          there is a card with this number, from 1 to 65535
  day D                           the desk's day; it never goes back
  bar C                           the desk bars a card, once only
  desk C                          a card is at the desk and takes the newest list along
  visit C L                       an honest card is at a lock: both have the newer list afterwards
  thief C L [says T] [gives T]    a thief is at a lock with a card, says that it has list T, gives
                                  list T where the lock awaits one, and takes nothing
  # ..                            a comment

Each line prints itself and what came of it: ready, today, barring N, list T, opened,
turned away N, broken off, no list, or refused N.
";

// Why nothing was played, or why what came of it could not be printed.
#[derive(Debug, Drop, Error)]
enum Failure {
    #[error("{path}: {error}")]
    Unread { path: String, error: io::Error },
    #[error(transparent)]
    Faulty(#[from] ScriptError),
    // There is room for all answers, so it can only be that.
    #[error("a card or lock is not set up")]
    NotPlayed(#[from] RunError),
    #[error("one script at a time; see valley --help")]
    TwoScripts,
    #[error(transparent)]
    Io(#[from] io::Error),
    #[error(transparent)]
    Memory(#[from(alloc)] AllocError),
}

// What is to be played: a file's text, or standard input's.
fn text_of(
    rt: &(impl Files + Input + AllocGlobal),
    path: Option<String>,
) -> Result<Vec<u8>, Failure> {
    let Some(path) = path else {
        let mut text = Vec::new(rt.alloc());
        rt.reader().read_to_end(&mut text)?;
        return Ok(text);
    };
    fs::read(rt, path.as_str()).map_err(|error| Failure::Unread { path, error })
}

// Each lock by number, with its list.
fn closing(heap: Global, world: &World, holders: &[Holder]) -> Result<String, AllocError> {
    let mut locks: Vec<u16> = holders
        .iter()
        .filter_map(|holder| match holder {
            Holder::Lock(lock) => Some(*lock),
            Holder::Card(_) => None,
        })
        .collect(heap)?;
    locks.sort_unstable();
    let mut text = String::new(heap);
    for number in &locks {
        if let Some(lock) = world.lock(*number) {
            let line = LockLine {
                lock: *number,
                list: lock.list(),
                barrings: world.desk().list(lock.list()),
            };
            writeln!(text, "{line}")?;
        }
    }
    Ok(text)
}

fn play(rt: &(impl Print + AllocGlobal), text: &[u8]) -> Result<(), Failure> {
    let heap = rt.alloc();
    let script = read(heap, text)?;
    let mut world = World::new(heap, script.holders())?;
    let mut answers = Vec::with_capacity(heap, script.events().len())?;
    run(&mut world, script.events(), &mut answers)?;
    print!(rt; "{}", report(heap, script.commands(), &answers)?)?;
    print!(rt; "{}", closing(heap, &world, script.holders())?)?;
    Ok(())
}

fn valley(rt: &(impl Env + Files + Input + Print + AllocGlobal)) -> Result<(), Failure> {
    let mut args = env::args(rt)?.skip(1);
    let path = args.next();
    if args.next().is_some() {
        return Err(Failure::TwoScripts);
    }
    if path.as_ref().is_some_and(|word| word.as_str() == "--help") {
        print!(rt; "{HELP}")?;
        return Ok(());
    }
    let text = text_of(rt, path)?;
    play(rt, &text)
}

// What is wrong is said once, in plain words: an error that `main` returned would be printed again.
fn main(rt: HostRuntime) -> ExitCode {
    let Err(error) = valley(&rt) else {
        return ExitCode::SUCCESS;
    };
    let _ = eprintln!(rt; "{error}");
    ExitCode::FAILURE
}
