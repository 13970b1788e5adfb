// 01, "Calls": tag and drop tag. The pending tag is a small struct that they change in place.
#![tactic(auto)]

ghost use Rattle.std.specs.Prelude.{◌≡◌};
ghost use Rattle.board.specs.Refusals.{call_answer};
ghost use Rattle.machine.specs.Boards.{sets_board};
ghost use Rattle.machine.specs.Clauses.{Tag, DropTag};

use address::PAGE_NAMES;
use board::{Pending, Refusal, Shape};

// Remembers a line name.
pub fn tag(
    s: Shape,
    slots: &[u32],
    words: &[u64],
    records: &[u64],
    cache: &[u8],
    memory: &[u8],
    uses: &[[[u8; 4]; 4]],
    pending: &mut Pending,
    name: u64,
) -> Result<(), Refusal>
    ensures { Tag s (sets_board slots.now words.now records.now cache.now memory.now uses.now pending.old) name (call_answer result) (sets_board slots.now words.now records.now cache.now memory.now uses.now pending.new) }
{
    s.fit(slots, words, records, cache, memory, uses)?;
    if !address::ordinary_page(name / PAGE_NAMES) {
        return Err(Refusal::OutOfRange);
    }
    if pending.set {
        return Err(Refusal::TagState);
    }
    *pending = Pending { set: true, name };
    Ok(())
}

// Forgets the pending name.
pub fn drop_tag(
    s: Shape,
    slots: &[u32],
    words: &[u64],
    records: &[u64],
    cache: &[u8],
    memory: &[u8],
    uses: &[[[u8; 4]; 4]],
    pending: &mut Pending,
) -> Result<(), Refusal>
    ensures { DropTag s (sets_board slots.now words.now records.now cache.now memory.now uses.now pending.old) (call_answer result) (sets_board slots.now words.now records.now cache.now memory.now uses.now pending.new) }
{
    s.fit(slots, words, records, cache, memory, uses)?;
    if !pending.set {
        return Err(Refusal::TagState);
    }
    *pending = Pending::none();
    Ok(())
}
