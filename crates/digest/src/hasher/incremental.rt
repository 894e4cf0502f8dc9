// A hasher takes a message in parts.
ghost use Rattle.std.specs.Prelude.{◌≡◌, ℕ, ◌^◌, List};
ghost use Rattle.compression.specs.Sha256.{digest};
ghost use Rattle.digest.specs.Taken.{Took, Updated};
ghost use Rattle.digest.specs.Lengths.{length-taken};

use crate::closing::close;
use crate::hasher::Hasher;
use crate::incremental::{Incremental, TooLong};

// A message has fewer bytes than this.
const LIMIT: u64 = 1 << 61;

impl Incremental for Hasher {
    ghost Key = { Unit };

    ghost holds = { λ _. Took };

    ghost value = { λ _. digest };

    ghost limit = { 2 ^ 61 };

    ghost short = { λ _. length-taken };

    // Takes a part more of the message, or refuses it if the message would get too long.
    fn update(&mut self, part: &[u8]) -> Result<(), TooLong>
        ensures { Updated Took (2 ^ 61) self.old part.now result self.new }
    {
        if part.len() as u64 >= LIMIT - self.count {
            return Err(TooLong);
        }
        self.take(part);
        Ok(())
    }

    // The digest of what was taken.
    fn finish(self) -> [u8; 32]
        ensures { (m : List ℕ) → Took self m → result ≡ digest m }
    {
        let used = self.used();
        close(self.state, self.count - used as u64, &self.pending[..used])
    }
}
