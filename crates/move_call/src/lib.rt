// CR 9: move, which hands a page over: its frame, with its bytes, gets another page.
#![tactic(auto)]

ghost use Rattle.std.specs.Prelude.{◌≡◌};
ghost use Rattle.board.specs.declared.Pending.{Pending};
ghost use Rattle.board.specs.Refusals.{call_answer};
ghost use Rattle.machine.specs.Clauses.{Move};
ghost use Rattle.move_call.specs.Checks.{move_frame};
ghost use Rattle.machine.specs.Boards.{sets_board};

use board::{Refusal, Shape};

// Numbers 2, 8 and 11 of move, or the old page's frame.
fn move_frame(s: Shape, words: &[u64], page: u64, new: u64) -> Result<usize, Refusal>
    ensures { result ≡ move_frame s words.now page new }
{
    if !address::ordinary_page(new) {
        return Err(Refusal::OutOfRange);
    }
    let f = page_calls::page_frame(s, words, page)?;
    if pages::mapped_to(s, words, new).is_some() {
        return Err(Refusal::AlreadyMapped);
    }
    Ok(f)
}

// Moves a page: writes back and drops its lines and those of the new name, and gives its frame to the new page, with the same write bit.
pub fn move_page(
    s: Shape,
    slots: &[u32],
    words: &mut [u64],
    records: &mut [u64],
    cache: &[u8],
    memory: &mut [u8],
    uses: &[[[u8; 4]; 4]],
    page: u64,
    new: u64,
) -> Result<(), Refusal>
    ensures { (tag : Pending) → Move s (sets_board slots.now words.old records.old cache.now memory.old uses.now tag) page new (call_answer result) (sets_board slots.now words.new records.new cache.now memory.new uses.now tag) }
{
    s.fit(slots, words, records, cache, memory, uses)?;
    let f = move_frame(s, words, page, new)?;
    visits::visit_names(s, records, cache, memory, visits::of_move(page, new));
    let write = pages::word_writes(words[f]);
    words[f] = pages::frame_word(new, write);
    Ok(())
}
