// The two keys of a signature scheme. A signature is 64 bytes.
ghost use Rattle.std.specs.Prelude.{◌≡◌, ℕ, Bool, true, List, length};
ghost use Rattle.signing.specs.Signed.{carries, SignedBefore, Sealed, Accepted, Scheme};

// A key that anybody may have: it says whether a signature is right for a byte string.
pub trait VerifyingKey {
    // whether the key accepts the signature for the message
    ghost accepts: { Self → List ℕ → List ℕ → Bool };

    fn verify(&self, message: &[u8], signature: &[u8]) -> bool
        ensures { result ≡ accepts self.now message.now signature.now };
}

// A key that only its holder has: it signs.
pub trait SigningKey {
    // what its signatures are verified with
    type Verifying: VerifyingKey + Drop;

    ghost verifying: { Self → Self.Verifying };

    ghost signature: { Self → List ℕ → List ℕ };

    fn sign(&self, message: &[u8]) -> [u8; 64]
        ensures { result ≡ signature self.now message.now };

    fn verifying_key(&self) -> Self::Verifying
        ensures { result ≡ verifying self.now };

    // what was signed with a key is accepted under it
    ghost honest: { (k : Self) (m : List ℕ) → Self.Verifying.VerifyingKey.accepts (verifying k) m (signature k m) ≡ true };

    ghost sized: { (k : Self) (m : List ℕ) → length (signature k m) ≡ 64 };
}

// Whether a byte string ends with a signature, of 64 bytes, that is right for all before it.
pub fn is_signed<K: VerifyingKey>(key: &K, bytes: &[u8]) -> bool
    ensures value { result ≡ carries (K.accepts key.now) bytes.now }
    ensures before { SignedBefore (K.accepts key.now) bytes.now result }
{
    let Some((body, signature)) = bytes.split_last_chunk::<64>() else {
        return false;
    };
    key.verify(body, signature)
}

// Signs the first `n` bytes of lent memory and writes the signature after them. The answer is where that ends, or `None` where it has no
// room, and then nothing is written. The memory stays lent, with a length beside it: nothing that is signed takes heap.
// (With `first_chunk_mut` of what stands after `n` it would be shorter, but the proof that all of the memory is as it was where that answers `None` didn't close.)
pub fn seal<S: SigningKey>(key: &S, memory: &mut [u8], n: usize) -> Option<usize>
    ensures memory { Sealed (S.signature key.now) n memory.old result memory.new }
    ensures accepted { Accepted (S.Verifying.accepts (S.verifying key.now)) result memory.new }
    ensures scheme { Scheme (S.Verifying.accepts (S.verifying key.now)) (S.signature key.now) }
{
    if memory.len() < 64 || n > memory.len() - 64 {
        return None;
    }
    let signature = key.sign(&memory[0..n]);
    memory[n..n + 64].copy_from_slice(&signature);
    Some(n + 64)
}
