// The writing of a list file: its size first, then the directory, then the lines.
ghost use Rattle.std.specs.Prelude.{◌≡◌, ◌+◌, ◌*◌, ◌≤◌, map, length};
ghost use Rattle.rows.specs.Checks.{Answered, KeptIfRefused};
ghost use Rattle.rows.specs.Listing.{file_of};
ghost use Rattle.rows.specs.Standing.{rows_of};
ghost use Rattle.listing.specs.Laid.{directory_of, laid, text_of};
ghost use Rattle.listing.specs.Listing.{ReadsBack, Written, list_checks};

use super::bytes::{append, append_pair, two_bytes};
use machines::Machine;
use rows::{FolderFault, LONGEST_LINE, Lines, Storable};

// Writes a row's line to the front of a place and gives its length.
fn put_line<M: Machine>(lines: &Storable<M>, row: &[u8], place: &mut [u8]) -> usize
    requires stored { (M.Machine.rules lines.now.machine).Storable row.now }
    requires room { length ((M.Machine.rules lines.now.machine).line_of row.now) ≤ length place.old }
    ensures size { result ≡ length ((M.Machine.rules lines.now.machine).line_of row.now) }
    ensures written { place.new ≡ laid 0 ((M.Machine.rules lines.now.machine).line_of row.now) place.old }
{
    lines.machine().write_line(row, place).unwrap()
}

// The length of a row's line.
fn line_len<M: Machine>(lines: &Storable<M>, row: &[u8]) -> usize
    requires { (M.Machine.rules lines.now.machine).Storable row.now }
    ensures size { result ≡ length ((M.Machine.rules lines.now.machine).line_of row.now) }
    ensures short { result ≤ 59 }
{
    put_line(lines, row, &mut [0; LONGEST_LINE])
}

// The length of the list file.
fn file_len<M: Machine>(lines: &Storable<M>) -> usize
    ensures { result ≡ length (file_of (M.Machine.rules lines.now.machine) lines.now.rows) }
{
    let mut size = 2 + 4 * lines.count();
    // In the closure of a sum it would not be known that the row is storable.
    for row in lines.rows() {
        size += line_len(lines, row);
    }
    size
}

// Writes the count of the lines and their pairs, and gives where they end. 1,024 lines of 59 bytes end before byte 65,536, so two
// bytes hold each offset.
fn write_directory<M: Machine>(lines: &Storable<M>, place: &mut [u8]) -> usize
    requires room { 2 + 4 * length lines.now.rows ≤ length place.old }
    ensures end { result ≡ 2 + 4 * length lines.now.rows }
    ensures written { place.new ≡ laid 0 (directory_of (map (M.Machine.rules lines.now.machine).line_of lines.now.rows)) place.old }
{
    let mut at = append(place, 0, &two_bytes(lines.count()));
    let mut offset = 2 + 4 * lines.count();
    for row in lines.rows() {
        let size = line_len(lines, row);
        at = append_pair(place, at, offset, size);
        offset += size;
    }
    at
}

// Writes the lines one after another from `start` on.
fn write_lines<M: Machine>(lines: &Storable<M>, place: &mut [u8], start: usize)
    requires room { start + length (text_of (map (M.Machine.rules lines.now.machine).line_of lines.now.rows)) ≤ length place.old }
    ensures { place.new ≡ laid start (text_of (map (M.Machine.rules lines.now.machine).line_of lines.now.rows)) place.old }
{
    let mut at = start;
    for row in lines.rows() {
        at += put_line(lines, row, &mut place[at..]);
    }
}

// Writes the lines as a list file to the front of a place, and gives the file's length.
pub fn write_list<M: Machine>(
    machine: &M,
    lines: &Lines,
    place: &mut [u8],
) -> Result<usize, FolderFault>
    ensures answer { let u = M.Machine.rules machine.now in let ls = rows_of lines.now in Answered (list_checks u ls (length place.old)) (Written u ls place.old place.new) result }
    ensures kept { KeptIfRefused result place.old place.new }
    ensures again { ReadsBack (M.Machine.rules machine.now) (rows_of lines.now) result }
{
    let lines = Storable::new(machine, lines)?;
    let size = file_len(&lines);
    if place.len() < size {
        return Err(FolderFault::Short(size));
    }
    let start = write_directory(&lines, place);
    write_lines(&lines, place, start);
    Ok(size)
}
