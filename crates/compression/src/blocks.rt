// Blocks of a message, one after the other.
ghost use Rattle.std.specs.Prelude.{◌≡◌, ◌/◌, length};
ghost use Rattle.compression.specs.Sha256.{sum, compressed, processed};

use crate::rounds::sixteen_rounds;
use crate::schedule::first_words;
use crate::state::State;

// Field by field, since the words have the names that the RFC gives them.
#[tactic(auto, unfolding(crate::specs::Sha256::sum, crate::specs::Sha256::add))]
fn add(s: State, t: State) -> State
    ensures { result ≡ sum s t }
{
    State {
        a: s.a.wrapping_add(t.a),
        b: s.b.wrapping_add(t.b),
        c: s.c.wrapping_add(t.c),
        d: s.d.wrapping_add(t.d),
        e: s.e.wrapping_add(t.e),
        f: s.f.wrapping_add(t.f),
        g: s.g.wrapping_add(t.g),
        h: s.h.wrapping_add(t.h),
    }
}

// The state after one block more.
fn compress(s: State, block: &[u8; 64]) -> State
    ensures { result ≡ compressed s block.now }
{
    let (s0, w0) = sixteen_rounds::<0>(s, &first_words(block));
    let (s1, w1) = sixteen_rounds::<16>(s0, &w0);
    let (s2, w2) = sixteen_rounds::<32>(s1, &w1);
    let (s3, _) = sixteen_rounds::<48>(s2, &w2);
    add(s, s3)
}

// The state after the whole blocks of `bytes`.
pub fn process(start: State, bytes: &[u8]) -> State
    ensures { result ≡ processed bytes.now (length bytes.now / 64) start }
{
    let (blocks, _) = bytes.as_chunks::<64>();
    blocks.iter().fold(start, |s, block| compress(s, block))
}
