// A hasher: what is left of a message that comes in parts.
ghost use Rattle.std.specs.Prelude.{◌≡◌, ◌+◌, ◌%◌, ◌^◌, ◌<◌, [], length};

use crate::closing::put;
use compression::{State, initial, process};

mod incremental;

// The state after the whole blocks taken so far, the bytes after these at the start of `pending`, and how many bytes were taken in all. It
// stays an array with a count, since a hasher is `Copy` and takes no heap. It has no `Debug`, which would print a part of the message, and no
// `==`, since what stands after the pending bytes says nothing.
#[derive(Clone, Copy)]
pub struct Hasher {
    state: State,
    pending: [u8; 64],
    count: u64,
    ghost short: { count < 2 ^ 61 },
}

impl Hasher {
    ghost use Rattle.digest.specs.Taken.{Took, Takes};

    // A hasher that has taken nothing yet.
    pub fn new() -> Hasher
        ensures { Took result [] }
    {
        Hasher {
            state: initial(),
            pending: [0; 64],
            count: 0,
        }
    }

    // Takes a part that the message has room for.
    pub(crate) fn take(&mut self, part: &[u8])
        requires { self.old.count + length part.now < 2 ^ 61 }
        ensures { Takes self.old part.now self.new }
    {
        let used = self.used();
        self.count += part.len() as u64;
        if used == 0 {
            // Whole blocks at the front are processed where they stand, so that nothing of them, as of a key, stays here.
            self.state = process(self.state, part);
            let (_, left) = part.as_chunks::<64>();
            put(&mut self.pending, 0, left);
        } else if let Some((end, rest)) = part.split_at_checked(64 - used) {
            // The pending block is full now, and the whole blocks after it are processed where they stand.
            put(&mut self.pending, used, end);
            self.state = process(process(self.state, &self.pending), rest);
            let (_, left) = rest.as_chunks::<64>();
            put(&mut self.pending, 0, left);
        } else {
            put(&mut self.pending, used, part);
        }
    }

    // How many bytes are pending.
    fn used(&self) -> usize
        ensures { result ≡ self.now.count % 64 }
    {
        (self.count % 64) as usize
    }
}
