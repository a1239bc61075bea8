// Bytes and numbers, laid over a place. The place is lent whole, so what is written says where it ends.
ghost use Rattle.std.specs.Prelude.{◌≡◌, ◌+◌, ◌<◌, ◌≤◌, ◌++◌, length};
ghost use Rattle.files.specs.Writer.{two_bytes};
ghost use Rattle.listing.specs.Laid.{laid};

// Writes bytes at `at` and gives where they end.
pub(crate) fn append(place: &mut [u8], at: usize, bytes: &[u8]) -> usize
    requires { at + length bytes.now ≤ length place.old }
    ensures end { result ≡ at + length bytes.now }
    ensures written { place.new ≡ laid at bytes.now place.old }
{
    let end = at + bytes.len();
    place[at..end].copy_from_slice(bytes);
    end
}

// A number as two bytes, high byte first.
pub(crate) fn two_bytes(n: usize) -> [u8; 2]
    requires { n < 65536 }
    ensures { result ≡ two_bytes n }
{
    (n as u16).to_be_bytes()
}

// Writes a line's offset and length at `at` and gives where they end.
pub(crate) fn append_pair(place: &mut [u8], at: usize, offset: usize, size: usize) -> usize
    requires room { at + 4 ≤ length place.old }
    requires low { offset < 65536 }
    requires short { size < 65536 }
    ensures end { result ≡ at + 4 }
    ensures written { place.new ≡ laid at (two_bytes offset ++ two_bytes size) place.old }
{
    let middle = append(place, at, &two_bytes(offset));
    append(place, middle, &two_bytes(size))
}
