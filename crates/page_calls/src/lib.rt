// 01, "Calls": unmap and protect.
#![tactic(auto)]

ghost use Rattle.std.specs.Prelude.{◌≡◌};
ghost use Rattle.board.specs.declared.Pending.{Pending};
ghost use Rattle.board.specs.Refusals.{call_answer};
ghost use Rattle.machine.specs.Clauses.{Unmap, Protect};
ghost use Rattle.page_calls.specs.Checks.{page_frame};
ghost use Rattle.machine.specs.Boards.{sets_board};

use board::{Refusal, Shape};

// Numbers 2 and 8 of unmap and protect (and of move, for its old page), or the page's frame.
pub fn page_frame(s: Shape, words: &[u64], page: u64) -> Result<usize, Refusal>
    ensures { result ≡ page_frame s words.now page }
{
    if !address::ordinary_page(page) {
        return Err(Refusal::OutOfRange);
    }
    pages::mapped_to(s, words, page).ok_or(Refusal::Unmapped)
}

// Unmaps a page: writes back and drops its lines, and frees its frame.
pub fn unmap(
    s: Shape,
    slots: &[u32],
    words: &mut [u64],
    records: &mut [u64],
    cache: &[u8],
    memory: &mut [u8],
    uses: &[[[u8; 4]; 4]],
    page: u64,
) -> Result<(), Refusal>
    ensures { (tag : Pending) → Unmap s (sets_board slots.now words.old records.old cache.now memory.old uses.now tag) page (call_answer result) (sets_board slots.now words.new records.new cache.now memory.new uses.now tag) }
{
    s.fit(slots, words, records, cache, memory, uses)?;
    let f = page_frame(s, words, page)?;
    visits::visit_names(s, records, cache, memory, visits::of_unmap(page));
    words[f] = 0;
    Ok(())
}

// Changes a page's write bit, and that of its lines.
pub fn protect(
    s: Shape,
    slots: &[u32],
    words: &mut [u64],
    records: &mut [u64],
    cache: &[u8],
    memory: &mut [u8],
    uses: &[[[u8; 4]; 4]],
    page: u64,
    write: bool,
) -> Result<(), Refusal>
    ensures { (tag : Pending) → Protect s (sets_board slots.now words.old records.old cache.now memory.old uses.now tag) page write (call_answer result) (sets_board slots.now words.new records.new cache.now memory.new uses.now tag) }
{
    s.fit(slots, words, records, cache, memory, uses)?;
    let f = page_frame(s, words, page)?;
    visits::visit_names(s, records, cache, memory, visits::of_protect(page, write));
    words[f] = pages::frame_word(page, write);
    Ok(())
}
