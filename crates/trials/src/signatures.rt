// The stand-in's signatures, by example.
ghost use Rattle.std.specs.Prelude.{◌<◌};

use signing::keys::{SigningKey, VerifyingKey, is_signed, seal};
use signing::stand_in::StandInKey;

const MESSAGE: &[u8] = b"list 7";

// The HMAC tags of "list 7" under the bytes 0 to 31 and then 1, and then 2, as Python's hmac has them, which is OpenSSL's.
const SIGNATURE: &[u8] =
    b"\x5d\x8b\x40\x10\x19\x25\x64\x1d\xdc\x0c\x3f\x96\x98\x5b\x3e\xde\x09\x56\x31\x20\xfa\x83\x24\x01\x02\x3c\xae\x50\x5f\x98\x53\x16\xa4\x88\x18\xca\x3b\x3f\x64\x6a\x63\xc5\x87\x85\xf5\xbb\x7c\x90\xbd\x2c\x1e\x33\xa9\x72\x12\x91\x3a\x2c\xfa\x15\x3a\x60\x22\x7d";

fn key() -> StandInKey {
    StandInKey {
        bytes: std::array::from_fn(|i| i as u8),
    }
}

// The bytes, with a bit of byte `i` changed. The loops below go through the places, since one after the other is damaged.
fn damaged<const N: usize>(bytes: [u8; N], i: usize) -> [u8; N]
    requires { i < N }
{
    let mut damaged = bytes;
    damaged[i] ^= 1;
    damaged
}

// A signature is right as a whole only: any byte changed, one less or one more, another message or another key, and it is wrong.
#[test]
fn wrong_signatures(rt: HostRuntime) {
    let key = key();
    let signature = key.sign(MESSAGE);
    assert!(rt; &signature[0..64] == SIGNATURE);
    assert!(rt; key.verify(MESSAGE, SIGNATURE));
    for i in 0..64 {
        assert!(rt; !key.verify(MESSAGE, &damaged(signature, i)));
    }
    assert!(rt; !key.verify(MESSAGE, &signature[0..63]));
    assert!(rt; !key.verify(b"list 8", &signature));
    let other = StandInKey {
        bytes: damaged(key.bytes, 31),
    };
    assert!(rt; !other.verify(MESSAGE, &signature));
}

// Memory that is sealed, and then damaged at each byte and cut at each length; without room for a signature it is left as it was.
#[test]
fn sealed_memory(rt: HostRuntime) {
    let key = key();
    let mut bytes = [0; 70];
    bytes[0..6].copy_from_slice(MESSAGE);
    assert!(rt; seal(&key, &mut bytes, 7).is_none());
    assert!(rt; &bytes[6..70] == [0; 64].as_slice());
    assert_eq!(rt; seal(&key, &mut bytes, 6), Some(70));
    assert!(rt; &bytes[6..70] == SIGNATURE);
    assert!(rt; is_signed(&key, &bytes));
    for i in 0..70 {
        assert!(rt; !is_signed(&key, &damaged(bytes, i)));
        assert!(rt; !is_signed(&key, &bytes[0..i]));
    }
}
