// 01, "Calls": flush all, and look with its refusal.
#![tactic(auto)]

ghost use Rattle.std.specs.Prelude.{◌≡◌, ◌*◌, ◌<◌};
ghost use Rattle.address.specs.Layout.{page_lines};
ghost use Rattle.board.specs.declared.Pending.{Pending};
ghost use Rattle.board.specs.Refusals.{call_answer};
ghost use Rattle.lines.specs.Holds.{keeper_of};
ghost use Rattle.stores.specs.Stores.{current, store};
ghost use Rattle.stores.specs.Premises.{Sized};
ghost use Rattle.machine.specs.Looks.{start_by};
ghost use Rattle.machine.specs.Clauses.{FlushAll, LookNumber, Look};
ghost use Rattle.machine.specs.Boards.{sets_board};

use board::{LINE_BYTES, PAGE_LINES, Refusal, Shape};
use lines::LineRecords;

// Writes back every changed line and drops all.
pub fn flush_all(
    s: Shape,
    slots: &[u32],
    words: &[u64],
    records: &mut [u64],
    cache: &[u8],
    memory: &mut [u8],
    uses: &[[[u8; 4]; 4]],
) -> Result<(), Refusal>
    ensures { (tag : Pending) → FlushAll s (sets_board slots.now words.now records.old cache.now memory.old uses.now tag) (call_answer result) (sets_board slots.now words.now records.new cache.now memory.new uses.now tag) }
{
    s.fit(slots, words, records, cache, memory, uses)?;
    visits::visit_names(s, records, cache, memory, visits::of_flush());
    Ok(())
}

// Numbers 1 and 2 of look, which changes nothing.
pub fn look_check(
    s: Shape,
    slots: &[u32],
    words: &[u64],
    records: &[u64],
    cache: &[u8],
    memory: &[u8],
    uses: &[[[u8; 4]; 4]],
    line: usize,
) -> Result<(), Refusal>
    ensures { (tag : Pending) → LookNumber s (sets_board slots.now words.now records.now cache.now memory.now uses.now tag) line (call_answer result).number }
{
    s.fit(slots, words, records, cache, memory, uses)?;
    if line >= PAGE_LINES * s.frames {
        return Err(Refusal::OutOfRange);
    }
    Ok(())
}

// The sixteen bytes of a physical line where they stand now: a part of the cache bytes or of memory.
fn current_part<'a>(
    s: Shape,
    records: &[u64],
    cache: &'a [u8],
    memory: &'a [u8],
    line: usize,
) -> &'a [u8]
    requires { Sized s records.now cache.now memory.now × (line < page_lines * s.frames) }
    ensures { (result.now ≡ current s (store records.now cache.now memory.now) line) × (result.ref_ptr ≡ start_by cache.entry.ref_ptr memory.entry.ref_ptr line (keeper_of s records.now line)) }
{
    match (LineRecords { shape: s, records }).keeper_of(line) {
        Some(i) => {
            let a = LINE_BYTES * i;
            &cache[a..a + LINE_BYTES]
        }
        None => {
            let a = LINE_BYTES * line;
            &memory[a..a + LINE_BYTES]
        }
    }
}

// The current sixteen bytes of a physical line, as a part of the caller's own buffers; refused, an empty part.
pub fn look<'a>(
    s: Shape,
    slots: &[u32],
    words: &[u64],
    records: &[u64],
    cache: &'a [u8],
    memory: &'a [u8],
    uses: &[[[u8; 4]; 4]],
    line: usize,
) -> &'a [u8]
    ensures { (tag : Pending) → Look s (sets_board slots.now words.now records.now cache.now memory.now uses.now tag) line cache.entry memory.entry result }
{
    match look_check(s, slots, words, records, cache, memory, uses, line) {
        Ok(()) => current_part(s, records, cache, memory, line),
        Err(_) => &cache[0..0],
    }
}
