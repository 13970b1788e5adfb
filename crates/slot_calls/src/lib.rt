// 01, "Calls": attach and detach.
#![tactic(auto)]

ghost use Rattle.std.specs.Prelude.{◌≡◌, ◌&&◌};
ghost use Rattle.board.specs.declared.Pending.{Pending};
ghost use Rattle.board.specs.Refusals.{call_answer};
ghost use Rattle.machine.specs.Refusals.{is_process, is_slot};
ghost use Rattle.machine.specs.Clauses.{Attach, Detach};
ghost use Rattle.machine.specs.Boards.{sets_board};

use board::{PROCESS_SLOTS, Refusal, Shape};

// A process and a slot in their ranges.
fn has_slot(s: Shape, process: usize, slot: usize) -> bool
    ensures { result ≡ (is_process s process && is_slot slot) }
{
    process < s.processes && slot < PROCESS_SLOTS
}

// Attaches a segment to a slot of a process.
pub fn attach(
    s: Shape,
    slots: &mut [u32],
    words: &[u64],
    records: &[u64],
    cache: &[u8],
    memory: &[u8],
    uses: &[[[u8; 4]; 4]],
    process: usize,
    slot: usize,
    segment: u64,
    write: bool,
) -> Result<(), Refusal>
    ensures { (tag : Pending) → Attach s (sets_board slots.old words.now records.now cache.now memory.now uses.now tag) process slot segment write (call_answer result) (sets_board slots.new words.now records.now cache.now memory.now uses.now tag) }
{
    s.fit(slots, words, records, cache, memory, uses)?;
    if !(has_slot(s, process, slot) && address::attachable_segment(segment)) {
        return Err(Refusal::OutOfRange);
    }
    slots::attach_slot(slots, process, slot, segment, write);
    Ok(())
}

// Empties a slot of a process.
pub fn detach(
    s: Shape,
    slots: &mut [u32],
    words: &[u64],
    records: &[u64],
    cache: &[u8],
    memory: &[u8],
    uses: &[[[u8; 4]; 4]],
    process: usize,
    slot: usize,
) -> Result<(), Refusal>
    ensures { (tag : Pending) → Detach s (sets_board slots.old words.now records.now cache.now memory.now uses.now tag) process slot (call_answer result) (sets_board slots.new words.now records.now cache.now memory.now uses.now tag) }
{
    s.fit(slots, words, records, cache, memory, uses)?;
    if !has_slot(s, process, slot) {
        return Err(Refusal::OutOfRange);
    }
    slots::detach_slot(slots, process, slot);
    Ok(())
}
