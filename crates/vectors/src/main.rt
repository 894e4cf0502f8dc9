// Holds digests and HMAC tags to published values.
#![tactic(auto)]

use digest::{Hasher, Hmac, Incremental, TooLong, hmac_sha256, in_parts, sha256};
use std::alloc::{AllocError, Global};
use std::io::Write;
use std::process::ExitCode;
use std::rt::{Env, Files};
use std::{env, fs, io};
use thiserror::Error;
use words::cut::bare;
use words::{Words, Wrong};

const HELP: &str = "\
usage: vectors FILE ..

Holds SHA-256 and HMAC-SHA-256 to the values in the files, each taken whole and cut in three parts
at the limits of a block, and prints a line for each. It ends with status 1 if one of them differs.

  sha256 NAME MESSAGE TIMES DIGEST    the digest of the message, repeated so many times
  hmac NAME KEY MESSAGE TAG           the tag of the message under the key, or as many of its
                                      first bytes as are published
  # ..                                a comment

Byte strings are in hexadecimal digits; - is the empty one.
";

// What is wrong with a line, or why it could not be told.
#[derive(Debug, Drop, Error)]
enum LineError {
    #[error("a hexadecimal digit is expected")]
    NotHexadecimal,
    #[error("an odd number of hexadecimal digits")]
    HalfByte,
    #[error("a number is expected")]
    NotANumber,
    #[error("a digest has 32 bytes")]
    DigestLength,
    #[error("a tag has 16 to 32 bytes")]
    TagLength,
    #[error("sha256 or hmac is expected")]
    UnknownKind,
    #[error(transparent)]
    Words(#[from] Wrong),
    #[error(transparent)]
    Io(#[from] io::Error),
    #[error(transparent)]
    Memory(#[from(alloc)] AllocError),
}

// Why the values of the files do not hold, or are not known to.
#[derive(Debug, Drop, Error)]
enum Failure {
    #[error("{path}: {error}")]
    Unread {
        path: String,
        error: io::Error,
    },
    #[error("{path}, line {number}: {error}")]
    Line {
        path: String,
        number: usize,
        error: LineError,
    },
    #[error("a file is expected; see vectors --help")]
    NoFile,
    #[error("a value differs")]
    Differs,
    #[error(transparent)]
    Io(#[from] io::Error),
    #[error(transparent)]
    Memory(#[from(alloc)] AllocError),
}

// Not by the kit's `hex`, which takes capital letters too.
fn digit(byte: u8) -> Result<u8, LineError> {
    match byte {
        b'0'..=b'9' => Ok(byte - b'0'),
        b'a'..=b'f' => Ok(byte - b'a' + 10),
        _ => Err(LineError::NotHexadecimal),
    }
}

// What is wrong with a digit is said before that one is left over.
fn bytes_of(heap: Global, word: &[u8]) -> Result<Vec<u8>, LineError> {
    if word == b"-".as_slice() {
        return Ok(Vec::new(heap));
    }
    let (pairs, left) = word.as_chunks::<2>();
    let bytes = pairs
        .iter()
        .map(|[high, low]| -> Result<u8, LineError> { Ok(digit(*high)? << 4 | digit(*low)?) })
        .try_collect(heap)?;
    if let [byte, ..] = left {
        digit(*byte)?;
        return Err(LineError::HalfByte);
    }
    Ok(bytes)
}

// Here and in the two functions that call it the memory and the words stay two parameters: a struct of them would be longer.
fn next_bytes(heap: Global, words: &mut Words<'_>) -> Result<Vec<u8>, LineError> {
    bytes_of(heap, words.next()?)
}

// Where a message is cut into parts: the limits of a block, of two, and of what leaves room for the length.
const CUTS: [usize; 10] = [0, 1, 55, 56, 63, 64, 65, 119, 120, 128];

// The digest of a message that comes `times` times, in as many parts.
fn digest_of_times(message: &[u8], times: u32) -> Result<[u8; 32], TooLong> {
    let mut hasher = Hasher::new();
    for _ in 0..times {
        hasher.update(message)?;
    }
    Ok(hasher.finish())
}

// Whether what a message comes to begins with the published bytes, with the message cut in three at any two of these places.
fn holds_cut<T: Incremental + Copy + Drop>(
    empty: T,
    message: &[u8],
    published: &[u8],
) -> Result<bool, TooLong> {
    for i in CUTS {
        for j in CUTS {
            if i <= j && j <= message.len() {
                let parts = [&message[..i], &message[i..j], &message[j..]];
                if !in_parts(empty, &parts)?.starts_with(published) {
                    return Ok(false);
                }
            }
        }
    }
    Ok(true)
}

// Whether the digest that a line has is the one of its message, taken whole, by its repetitions and cut at limits. What may be refused is taken apart by `let .. else`, here and in `tag_holds`, as was asked for.
fn digest_holds(heap: Global, words: &mut Words<'_>) -> Result<bool, LineError> {
    let message = next_bytes(heap, words)?;
    let Ok(times) = words.number() else {
        return Err(LineError::NotANumber);
    };
    let published = next_bytes(heap, words)?;
    if published.len() != 32 {
        return Err(LineError::DigestLength);
    }
    let Ok(by_times) = digest_of_times(&message, times) else {
        return Ok(false);
    };
    let all = message.repeat(heap, times as usize)?;
    let whole = sha256(&all);
    let Ok(cut) = holds_cut(Hasher::new(), &all, &published) else {
        return Ok(false);
    };
    Ok(cut && whole.starts_with(&published) && by_times.starts_with(&published))
}

// Whether the tag that a line has, or what is published of it, is the one of its message, taken whole and cut at limits.
fn tag_holds(heap: Global, words: &mut Words<'_>) -> Result<bool, LineError> {
    let key = next_bytes(heap, words)?;
    let message = next_bytes(heap, words)?;
    let published = next_bytes(heap, words)?;
    if !(16..=32).contains(&published.len()) {
        return Err(LineError::TagLength);
    }
    let whole = hmac_sha256(&key, &message);
    let Ok(cut) = holds_cut(Hmac::new(&key), &message, &published) else {
        return Ok(false);
    };
    Ok(cut && whole.starts_with(&published))
}

// One line: its first two words are printed, and whether its value holds.
fn hold(rt: &(impl Print + AllocGlobal), line: &[u8]) -> Result<bool, LineError> {
    let heap = rt.alloc();
    let mut words = Words::new(line);
    let kind = words.next()?;
    let name = words.next()?;
    let holds = match kind {
        b"sha256" => digest_holds(heap, &mut words)?,
        b"hmac" => tag_holds(heap, &mut words)?,
        _ => return Err(LineError::UnknownKind),
    };
    words.end()?;
    let mut out = io::writer(rt);
    out.write_all(kind)?;
    out.write_all(b" ")?;
    out.write_all(name)?;
    out.write_all(if holds { b": ok\n" } else { b": differs\n" })?;
    Ok(holds)
}

// Whether every value of a file holds. Each line is told, also after one that differs, and so not by `all`, which would stop there.
fn hold_all(rt: &(impl Files + Print + AllocGlobal), path: &str) -> Result<bool, Failure> {
    let heap = rt.alloc();
    let text = fs::read(rt, path).try_map_err(|error| {
        let path = String::from_str(heap, path)?;
        Ok(Failure::Unread { path, error })
    })?;
    let mut all = true;
    for (line, number) in text.split(|byte| *byte == b'\n').zip(1..) {
        let said = bare(line);
        if !said.is_empty() {
            all &= hold(rt, said).try_map_err(|error| {
                let path = String::from_str(heap, path)?;
                Ok(Failure::Line {
                    path,
                    number,
                    error,
                })
            })?;
        }
    }
    Ok(all)
}

fn vectors(rt: &(impl Env + Files + Print + AllocGlobal)) -> Result<(), Failure> {
    let mut held = None;
    for path in env::args(rt)?.skip(1) {
        if path.as_str() == "--help" {
            print!(rt; "{HELP}")?;
            return Ok(());
        }
        held = Some(hold_all(rt, path.as_str())? && held.unwrap_or(true));
    }
    match held {
        None => Err(Failure::NoFile),
        Some(false) => Err(Failure::Differs),
        Some(true) => Ok(()),
    }
}

// What is wrong is said once, in plain words: an error that `main` returned would be printed again.
fn main(rt: HostRuntime) -> ExitCode {
    let Err(error) = vectors(&rt) else {
        return ExitCode::SUCCESS;
    };
    let _ = eprintln!(rt; "{error}");
    ExitCode::FAILURE
}
