// Numbers in a file.
ghost use Rattle.std.specs.Prelude.{◌≡◌, ◌+◌, ◌<◌, length};
ghost use Rattle.files.specs.Bytes.{two};

// The number that the two bytes at a place give, high byte first.
pub(crate) fn two_at(bytes: &[u8], at: usize) -> usize
    requires { at + 1 < length bytes.now }
    ensures value { result ≡ two bytes.now at }
    ensures small { result < 65536 }
{
    usize::from(u16::from_be_bytes([bytes[at], bytes[at + 1]]))
}
