// Look for C and Rust: where the line's current bytes stand in the caller's own buffers, as one number.
#![tactic(auto)]

ghost use Rattle.std.specs.Prelude.{◌≡◌, ◌*◌, ◌<◌};
ghost use Rattle.address.specs.Layout.{page_lines};
ghost use Rattle.board.specs.declared.Pending.{Pending};
ghost use Rattle.lines.specs.Holds.{keeper_of};
ghost use Rattle.stores.specs.Premises.{Sized};
ghost use Rattle.look_place.specs.Lends.{place_by, LookPlace};
ghost use Rattle.machine.specs.Boards.{sets_board};

use board::{LINE_BYTES, Shape};
use lines::LineRecords;

// What look adds for a place in memory, and what it gives where it is refused.
const IN_MEMORY: u64 = 9223372036854775808;

const NOWHERE: u64 = 18446744073709551615;

// Where a line's current bytes stand: in the cache bytes, or in memory.
fn place_of_line(s: Shape, records: &[u64], cache: &[u8], memory: &[u8], line: usize) -> u64
    requires { Sized s records.now cache.now memory.now × (line < page_lines * s.frames) }
    ensures { result ≡ place_by line (keeper_of s records.now line) }
{
    match (LineRecords { shape: s, records }).keeper_of(line) {
        Some(i) => (LINE_BYTES * i) as u64,
        None => IN_MEMORY + (LINE_BYTES * line) as u64,
    }
}

// Where the current sixteen bytes of a physical line stand: refused, nowhere.
pub fn place(
    s: Shape,
    slots: &[u32],
    words: &[u64],
    records: &[u64],
    cache: &[u8],
    memory: &[u8],
    uses: &[[[u8; 4]; 4]],
    line: usize,
) -> u64
    ensures { (tag : Pending) → LookPlace s (sets_board slots.now words.now records.now cache.now memory.now uses.now tag) line result }
{
    match line_calls::look_check(s, slots, words, records, cache, memory, uses, line) {
        Ok(()) => place_of_line(s, records, cache, memory, line),
        Err(_) => NOWHERE,
    }
}
