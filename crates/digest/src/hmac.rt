// HMAC-SHA-256: the digest of a message under a key, its tag.
ghost use Rattle.std.specs.Prelude.{◌≡◌, ℕ, ◌-◌, ◌^◌, List, [], map, bit_xor};
ghost use Rattle.compression.specs.Sha256.{initial_hash, processed};
ghost use Rattle.digest.specs.Hmac.{key_block, hmac as tag};
ghost use Rattle.digest.specs.Keyed.{Keyed};
ghost use Rattle.digest.specs.Taken.{Updated};
ghost use Rattle.digest.specs.Lengths.{length-keyed};

use crate::closing::{close, put, sha256};
use crate::hasher::Hasher;
use crate::incremental::{Incremental, TooLong};
use compression::{State, initial, process};

const INNER_PAD: u8 = 0x36;

const OUTER_PAD: u8 = 0x5c;

// An HMAC of a message that comes in parts. It has no `Debug` and no `==`, as a hasher.
#[derive(Clone, Copy)]
pub struct Hmac {
    inner: Hasher,
    outer: State,
}

// The bytes of a key, or the digest of one that is longer than a block, and zeros after them.
#[tactic(auto, using(crate::proofs::Keys::long_key, crate::proofs::Keys::short_key))]
fn key_block(key: &[u8]) -> [u8; 64]
    ensures { result ≡ key_block key.now }
{
    let mut block = [0; 64];
    if key.len() > 64 {
        put(&mut block, 0, &sha256(key));
    } else {
        put(&mut block, 0, key);
    }
    block
}

fn mask(block: [u8; 64], pad: u8) -> [u8; 64]
    ensures { result ≡ map (λ b. bit_xor b pad) block }
{
    std::array::from_fn(|i| block[i] ^ pad)
}

// The state after the key's block, each byte of it XORed with a pad.
fn after_key(block: [u8; 64], pad: u8) -> State
    ensures { result ≡ processed (map (λ b. bit_xor b pad) block) 1 initial_hash }
{
    process(initial(), &mask(block, pad))
}

impl Hmac {
    // An HMAC under `key` that has taken nothing yet.
    pub fn new(key: &[u8]) -> Hmac
        ensures { Keyed key.now result [] }
    {
        let block = key_block(key);
        let mut inner = Hasher::new();
        inner.take(&mask(block, INNER_PAD));
        Hmac {
            inner,
            outer: after_key(block, OUTER_PAD),
        }
    }
}

impl Incremental for Hmac {
    ghost Key = { List ℕ };

    ghost holds = { Keyed };

    ghost value = { tag };

    ghost limit = { 2 ^ 61 - 64 };

    ghost short = { length-keyed };

    // Takes a part more of the message, or refuses it if the message would get too long.
    fn update(&mut self, part: &[u8]) -> Result<(), TooLong>
        ensures { (k : List ℕ) → Updated (Keyed k) (2 ^ 61 - 64) self.old part.now result self.new }
    {
        self.inner.update(part)
    }

    // The tag of what was taken.
    fn finish(self) -> [u8; 32]
        ensures { (k m : List ℕ) → Keyed k self m → result ≡ tag k m }
    {
        close(self.outer, 64, &self.inner.finish())
    }
}

// The tag of a whole message.
pub fn hmac_sha256(key: &[u8], message: &[u8]) -> [u8; 32]
    ensures { result ≡ tag key.now message.now }
{
    let block = key_block(key);
    let inner = close(after_key(block, INNER_PAD), 64, message);
    close(after_key(block, OUTER_PAD), 64, &inner)
}
