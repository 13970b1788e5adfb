// Writes an entry of a log (CR 1).
#![tactic(auto)]

ghost use Rattle.std.specs.Prelude.{◌≡◌, ◌+◌, ◌*◌, ◌<◌, ◌≤◌, [], length};
ghost use Rattle.board.specs.Lists.{splice};
ghost use Rattle.log_numbers.specs.Numbers.{bytes_of};
ghost use Rattle.log_entries.specs.Entries.{fields_by_kind, five_of};
ghost use Rattle.log_writer.specs.Writing.{FirstWrong, numbers_of, entry_bytes, wrote_of, written, write_entry};

use log_entries::{Entry, Kind, MOST_FIELDS, most_of};
use log_numbers::put_number;

// A buffer of this many bytes has room for any entry.
pub const ENTRY_BYTES: usize = 60;

// Why an entry is refused: the buffer is too short; its kind isn't known; the field with this number, from 1, is too large.
#[derive(Clone, Copy, Debug, PartialEq, Eq)]
pub enum Refused {
    Short,
    Kind,
    Field(usize),
}

// The number of the first field that is too large, if one is.
fn first_wrong(e: Entry) -> Option<usize>
    requires { e.kind < length fields_by_kind }
    ensures { FirstWrong e result }
{
    for i in 1..=MOST_FIELDS {
        if most_of(e, i) < e.fields[i - 1] {
            return Some(i);
        }
    }
    None
}

// Writes numbers from `at` on, and says where they end.
fn put_all(numbers: &[u64], bytes: &mut [u8], at: usize) -> usize
    requires { at + 10 * length numbers.now ≤ length bytes.old }
    ensures { (bytes.new ≡ splice bytes.old at (bytes_of numbers.now)) × (result ≡ at + length (bytes_of numbers.now)) × (result ≤ at + 10 * length numbers.now) }
{
    let mut next = at;
    for number in numbers {
        next = put_number(*number, bytes, next);
    }
    next
}

// Writes the numbers of an entry, and says where they end.
fn put_numbers(e: Entry, bytes: &mut [u8]) -> usize
    requires { (e.kind < length fields_by_kind) × (entry_bytes ≤ length bytes.old) }
    ensures { (bytes.new ≡ splice bytes.old 0 (bytes_of (numbers_of e.kind (five_of e)))) × (result ≡ length (bytes_of (numbers_of e.kind (five_of e)))) × (result ≤ entry_bytes) }
{
    let fields = &e.fields[..log_entries::fields_of(e.kind)];
    if e.kind == Kind::Header as u64 {
        return put_all(fields, bytes, 0);
    }
    let at = put_number(e.kind, bytes, 0);
    put_all(fields, bytes, at)
}

// Writes an entry at the front of a buffer, and says how many bytes it has.
pub fn write(e: Entry, bytes: &mut [u8]) -> Result<usize, Refused>
    ensures { (written (wrote_of result) bytes.new ≡ write_entry e bytes.old) × ((wrote_of result).reason ≤ 6) × ((wrote_of result).amount ≤ entry_bytes) }
{
    if bytes.len() < ENTRY_BYTES {
        return Err(Refused::Short);
    }
    let Ok(_) = Kind::try_from(e.kind) else {
        return Err(Refused::Kind);
    };
    match first_wrong(e) {
        Some(i) => Err(Refused::Field(i)),
        None => Ok(put_numbers(e, bytes)),
    }
}
