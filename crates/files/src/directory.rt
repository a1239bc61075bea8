// The directory of a list file: how many lines there are, and where each one lies.
ghost use Rattle.std.specs.Prelude.{◌≡◌, ◌+◌, ◌*◌, ◌≤◌, IfOk, length};
ghost use Rattle.std.specs.Result.{result_err};
ghost use Rattle.files.specs.Bytes.{two};
ghost use Rattle.files.specs.Directory.{walk, dir_fault};

use crate::bytes::two_at;
use crate::must::must;

// The number of lines, or else the place of the directory's first fault.
pub(crate) fn line_count(bytes: &[u8]) -> Result<usize, usize>
    ensures fault { result_err result ≡ dir_fault bytes.now }
    ensures count { IfOk result (λ n. n ≡ two bytes.now 0) }
{
    must(bytes.len() >= 2, 0)?;
    let count = two_at(bytes, 0);
    must(count <= 1024, 0)?;
    must(bytes.len() >= 2 + 4 * count, 0)?;
    check_pairs(bytes, count)?;
    Ok(count)
}

// Looks for the first fault among the pairs, each of which has to begin where the one before it
// ends, with its place as the error.
fn check_pairs(bytes: &[u8], count: usize) -> Result<(), usize>
    requires { (2 + 4 * count ≤ length bytes.now) × (count ≤ 1024) }
    ensures { result_err result ≡ walk count 2 (2 + 4 * count) bytes.now }
{
    let mut due = 2 + 4 * count;
    // A fault is told by its place in the file, so the loop counts the pairs.
    for i in 0..count {
        let place = 2 + 4 * i;
        must(two_at(bytes, place) == due, place)?;
        due += two_at(bytes, place + 2);
    }
    must(due == bytes.len(), bytes.len())
}
