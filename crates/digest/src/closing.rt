// The end of a message: the padding, the last blocks and the digest; and the digest of a whole message.
ghost use Rattle.std.specs.Prelude.{◌≡◌, ◌+◌, ◌-◌, ◌^◌, ◌≤◌, ◌∷◌, ◌++◌, length, take, drop, replicate};
ghost use Rattle.compression.specs.Sha256.{bytes, output, digest};
ghost use Rattle.digest.specs.Closing.{Closes};

use compression::{State, initial, process};

// Writes `part` over what stands at `at` and after: `copy_from_slice`, with what it leaves of all the memory said in one clause.
pub(crate) fn put(out: &mut [u8], at: usize, part: &[u8])
    requires { at + length part.now ≤ length out.old }
    ensures { out.new ≡ take at out.old ++ (part.now ++ drop (at + length part.now) out.old) }
{
    out[at..at + part.len()].copy_from_slice(part);
}

// The last bytes of a message with the padding after them, in a block or two. The length goes first: with it last, the compiler would clear what is between by a call of C's `memset`.
fn last_blocks<const N: usize>(rest: &[u8], bits: u64) -> [u8; N]
    requires { length rest.now + 9 ≤ N }
    ensures { result ≡ rest.now ++ 0x80 ∷ (replicate (N - 9 - length rest.now) 0 ++ bytes 8 bits) }
{
    let mut last = [0; N];
    put(&mut last, N - 8, &bits.to_be_bytes());
    put(&mut last, 0, rest);
    last[rest.len()] = 0x80;
    last
}

// The words of a state, the highest byte of each first.
fn to_bytes(s: State) -> [u8; 32]
    ensures { result ≡ output s }
{
    let words = [s.a, s.b, s.c, s.d, s.e, s.f, s.g, s.h].map(u32::to_be_bytes);
    let mut bytes = [0; 32];
    bytes.copy_from_slice(words.as_flattened());
    bytes
}

// The digest of a message of which the first `before` bytes, whole blocks, came to `state`, and `rest` are the others.
pub(crate) fn close(state: State, before: u64, rest: &[u8]) -> [u8; 32]
    requires { before ≤ 2 ^ 61 }
    ensures { Closes state before rest.now result }
{
    let bits = (before + rest.len() as u64).wrapping_mul(8);
    let (_, left) = rest.as_chunks::<64>();
    let whole = process(state, rest);
    let last = if left.len() < 56 {
        process(whole, &last_blocks::<64>(left, bits))
    } else {
        process(whole, &last_blocks::<128>(left, bits))
    };
    to_bytes(last)
}

// The digest of a message.
pub fn sha256(message: &[u8]) -> [u8; 32]
    ensures { result ≡ digest message.now }
{
    close(initial(), 0, message)
}
