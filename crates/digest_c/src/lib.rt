// SHA-256 for programs in C or Rust that link this library.
#![tactic(auto)]

ghost use Rattle.compression.specs.Sha256.{digest};
ghost use Rattle.digest_c.specs.Written.{Written};

use digest::sha256;

// Writes the digest of a message over the first 32 bytes of `out`, or answers false and writes nothing where `out` is shorter. In C:
//
//     bool dozhebul_sha256(const uint8_t *message, size_t len, uint8_t *out, size_t room);
//
// The answer stays a `bool`, which C has. The contract holds where `message` has `len` bytes and `out` has `room`, and the two do not overlap.
#[unsafe(no_mangle)]
pub extern "C" fn dozhebul_sha256(message: &[u8], out: &mut [u8]) -> bool
    ensures { Written (digest message.now) out.old result out.new }
{
    let Some(first) = out.first_chunk_mut::<32>() else {
        return false;
    };
    *first = sha256(message);
    true
}
