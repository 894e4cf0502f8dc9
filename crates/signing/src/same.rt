// Byte strings that are compared to their end.
ghost use Rattle.std.specs.Prelude.{◌≡◌, Decides};
ghost use Rattle.std.specs.Str.{bytes_eq};

// Whether two byte strings are equal. It reads two of one length to their end whatever differs, so that the time tells nothing of where.
pub fn same_bytes(a: &[u8], b: &[u8]) -> bool
    ensures value { result ≡ bytes_eq a.now b.now }
    ensures equal { Decides result (a.now ≡ b.now) }
{
    if a.len() != b.len() {
        return false;
    }
    a.iter()
        .zip(b)
        .fold(0, |difference, (x, y)| difference | (x ^ y))
        == 0
}
