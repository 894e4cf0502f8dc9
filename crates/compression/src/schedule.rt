// The words that the rounds take up: those of the block, and then each sixteen by the sixteen before.
ghost use Rattle.std.specs.Prelude.{◌≡◌};
ghost use Rattle.compression.specs.Sha256.{words, next_word};

use crate::words::small_sigma;

// The sixteen words of a block, the highest byte of each first.
pub(crate) fn first_words(block: &[u8; 64]) -> [u32; 16]
    ensures { result ≡ words block.now 16 }
{
    let (fours, _) = block.as_chunks::<4>();
    std::array::from_fn(|t| u32::from_be_bytes(fours[t]))
}

// A word of the schedule by those 2, 7, 15 and 16 places before it.
#[tactic(auto, unfolding(crate::specs::Sha256::next_word, crate::specs::Sha256::add, crate::specs::Sha256::ssig0, crate::specs::Sha256::ssig1, crate::specs::Sha256::rotr))]
pub(crate) fn next_word(w2: u32, w7: u32, w15: u32, w16: u32) -> u32
    ensures { result ≡ next_word w2 w7 w15 w16 }
{
    small_sigma::<17, 19, 10>(w2)
        .wrapping_add(w7)
        .wrapping_add(small_sigma::<7, 18, 3>(w15))
        .wrapping_add(w16)
}
