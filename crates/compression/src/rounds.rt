// The rounds of a block, sixteen at a time.
ghost use Rattle.std.specs.Prelude.{◌≡◌, ◌+◌, ◌≤◌};
ghost use Rattle.compression.specs.Parts.{following, rounds_from};
ghost use Rattle.compression.specs.Sha256.{t1, t2, next_word, round as one_round};

use crate::schedule::next_word;
use crate::state::State;
use crate::words::{big_sigma, choose, majority, round_constant};

#[tactic(auto, unfolding(crate::specs::Sha256::t1, crate::specs::Sha256::add, crate::specs::Sha256::bsig1, crate::specs::Sha256::rotr))]
fn first_sum(s: &State, k: u32, w: u32) -> u32
    ensures { result ≡ t1 s.now k w }
{
    s.h.wrapping_add(big_sigma::<6, 11, 25>(s.e))
        .wrapping_add(choose(s.e, s.f, s.g))
        .wrapping_add(k)
        .wrapping_add(w)
}

#[tactic(auto, unfolding(crate::specs::Sha256::t2, crate::specs::Sha256::add, crate::specs::Sha256::bsig0, crate::specs::Sha256::rotr))]
fn second_sum(s: &State) -> u32
    ensures { result ≡ t2 s.now }
{
    big_sigma::<2, 13, 22>(s.a).wrapping_add(majority(s.a, s.b, s.c))
}

// A round, with its constant and its word of the schedule.
#[tactic(auto, unfolding(crate::specs::Sha256::round, crate::specs::Sha256::add))]
fn round(s: State, k: u32, w: u32) -> State
    ensures { result ≡ one_round s k w }
{
    let t1 = first_sum(&s, k, w);
    let t2 = second_sum(&s);
    State {
        a: t1.wrapping_add(t2),
        b: s.a,
        c: s.b,
        d: s.c,
        e: s.d.wrapping_add(t1),
        f: s.e,
        g: s.f,
        h: s.g,
    }
}

// A round with its constant and its word, and the word sixteen places after that, by those 15, 7 and 2 places before it. The word is computed
// before the round: the compiled code keeps that order, and it is the faster one.
fn step(s: State, k: u32, w16: u32, w15: u32, w7: u32, w2: u32) -> (State, u32)
    ensures state { result.0 ≡ one_round s k w16 }
    ensures word { result.1 ≡ next_word w2 w7 w15 w16 }
{
    let w = next_word(w2, w7, w15, w16);
    (round(s, k, w16), w)
}

// The sixteen rounds from the round `T` on, and the sixteen words after theirs. They are written out, with a number that is known when
// they are compiled: a loop would move the eight words of the state, and those of the schedule, from place to place.
pub(crate) fn sixteen_rounds<const T: usize>(s: State, w: &[u32; 16]) -> (State, [u32; 16])
    requires { T + 16 ≤ 64 }
    ensures state { result.0 ≡ rounds_from T w.now 16 s }
    ensures words { result.1 ≡ following w.now }
{
    let (s0, w0) = step(s, round_constant(T), w[0], w[1], w[9], w[14]);
    let (s1, w1) = step(s0, round_constant(T + 1), w[1], w[2], w[10], w[15]);
    let (s2, w2) = step(s1, round_constant(T + 2), w[2], w[3], w[11], w0);
    let (s3, w3) = step(s2, round_constant(T + 3), w[3], w[4], w[12], w1);
    let (s4, w4) = step(s3, round_constant(T + 4), w[4], w[5], w[13], w2);
    let (s5, w5) = step(s4, round_constant(T + 5), w[5], w[6], w[14], w3);
    let (s6, w6) = step(s5, round_constant(T + 6), w[6], w[7], w[15], w4);
    let (s7, w7) = step(s6, round_constant(T + 7), w[7], w[8], w0, w5);
    let (s8, w8) = step(s7, round_constant(T + 8), w[8], w[9], w1, w6);
    let (s9, w9) = step(s8, round_constant(T + 9), w[9], w[10], w2, w7);
    let (s10, w10) = step(s9, round_constant(T + 10), w[10], w[11], w3, w8);
    let (s11, w11) = step(s10, round_constant(T + 11), w[11], w[12], w4, w9);
    let (s12, w12) = step(s11, round_constant(T + 12), w[12], w[13], w5, w10);
    let (s13, w13) = step(s12, round_constant(T + 13), w[13], w[14], w6, w11);
    let (s14, w14) = step(s13, round_constant(T + 14), w[14], w[15], w7, w12);
    let (s15, w15) = step(s14, round_constant(T + 15), w[15], w0, w8, w13);
    (
        s15,
        [
            w0, w1, w2, w3, w4, w5, w6, w7, w8, w9, w10, w11, w12, w13, w14, w15,
        ],
    )
}
