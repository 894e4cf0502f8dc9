// A stand-in for a signature scheme, for trials and programs: who can verify with its key can also sign with it.
ghost use Rattle.std.specs.Prelude.{◌≡◌, ◌+◌, ◌++◌, refl};
ghost use Rattle.signing.specs.StandIn.{half as tag, stand_in};
ghost use Rattle.std.specs.Str.{bytes_eq};
ghost use Rattle.std.proofs.lemmas.Slice.Eq.{bytes_eq-Decides};
ghost use Rattle.signing.specs.Sizes.{length-stand_in};

use crate::keys::{SigningKey, VerifyingKey};
use crate::same::same_bytes;
use digest::hmac_sha256;

// The one key that signs and verifies. It has no `Debug`, which would print it, and no `==`, which would tell by its time where two keys differ.
#[derive(Clone, Copy)]
pub struct StandInKey {
    pub bytes: [u8; 32],
}

// One array after the other.
fn join<const N: usize, const M: usize, const BOTH: usize>(
    first: &[u8; N],
    second: &[u8; M],
) -> [u8; BOTH]
    requires { N + M ≡ BOTH }
    ensures { result ≡ first.now ++ second.now }
{
    let mut both = [0; BOTH];
    let (front, back) = both.split_at_mut(N);
    front.copy_from_slice(first);
    back.copy_from_slice(second);
    both
}

// The tag of a message under the key with a domain byte after it.
#[tactic(auto, unfolding(crate::specs::StandIn::half))]
fn half(key: &[u8; 32], domain: u8, message: &[u8]) -> [u8; 32]
    ensures { result ≡ tag key.now domain message.now }
{
    hmac_sha256(&join::<32, 1, 33>(key, &[domain]), message)
}

impl VerifyingKey for StandInKey {
    ghost accepts = { λ k m s. bytes_eq (stand_in k.bytes m) s };

    fn verify(&self, message: &[u8], signature: &[u8]) -> bool {
        same_bytes(&self.sign(message), signature)
    }
}

impl SigningKey for StandInKey {
    type Verifying = StandInKey;

    ghost verifying = { λ k. k };

    ghost signature = { λ k m. stand_in k.bytes m };

    ghost honest = { λ k m. let s = stand_in k.bytes m in (bytes_eq-Decides s s).1 refl };

    ghost sized = { λ k m. length-stand_in k.bytes m };

    #[tactic(auto, unfolding(crate::specs::StandIn::stand_in))]
    fn sign(&self, message: &[u8]) -> [u8; 64] {
        join::<32, 32, 64>(
            &half(&self.bytes, 1, message),
            &half(&self.bytes, 2, message),
        )
    }

    fn verifying_key(&self) -> StandInKey {
        *self
    }
}
