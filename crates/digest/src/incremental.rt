// A message that is taken in parts, as they come.
ghost use Rattle.std.specs.Prelude.{◌≡◌, ℕ, ◌<◌, List, length, Some, codes};
ghost use Rattle.digest.specs.Taken.{Updated, InParts};

use std::error::Error;
use std::fmt;

// The message would get longer than what takes it allows.
#[derive(Clone, Copy, Debug, PartialEq, Eq)]
pub struct TooLong;

// By hand, since a derived one has no contract.
impl fmt::Display for TooLong {
    ghost output = { λ _. Some (codes "the message is too long") };

    fn fmt<W: fmt::Write>(&self, f: &mut fmt::Formatter<W>) -> fmt::Result {
        write!(f, "the message is too long")
    }
}

impl Error for TooLong {}

// What takes a message in parts, and comes to 32 bytes in the end. No function here begins one: each type's own `new` says that it has taken nothing.
pub trait Incremental {
    // what it was begun with, as a key
    ghost Key: { Type 0 };

    // begun with the key, it has taken the message
    ghost holds: { Key → Self → List ℕ → Type 0 };

    // what a message comes to under the key
    ghost value: { Key → List ℕ → List ℕ };

    // a message has fewer bytes than this
    ghost limit: { ℕ };

    // Takes a part more of the message, or refuses it if the message would get too long.
    fn update(&mut self, part: &[u8]) -> Result<(), TooLong>
        ensures { (k : Key) → Updated (holds k) limit self.old part.now result self.new };

    // What the message comes to that was taken.
    fn finish(self) -> [u8; 32]
        ensures { (k : Key) (m : List ℕ) → holds k self m → result ≡ value k m };

    // what was taken is below the limit
    ghost short: { (k : Key) (taken : Self) (m : List ℕ) → holds k taken m → length m < limit };
}

// What a message comes to that is taken in these parts, one after the other.
pub fn in_parts<T: Incremental + Drop>(begun: T, parts: &[&[u8]]) -> Result<[u8; 32], TooLong>
    ensures { (k : T.Key) → InParts (T.holds k) (T.value k) T.limit begun parts.now result }
{
    let mut taken = begun;
    for part in parts {
        taken.update(part)?;
    }
    Ok(taken.finish())
}
