// 01, "Calls": map.
#![tactic(auto)]

ghost use Rattle.std.specs.Prelude.{◌≡◌, ◌&&◌};
ghost use Rattle.address.specs.Addresses.{ordinary_page};
ghost use Rattle.board.specs.declared.Pending.{Pending};
ghost use Rattle.board.specs.Refusals.{call_answer};
ghost use Rattle.machine.specs.Refusals.{is_frame};
ghost use Rattle.machine.specs.Clauses.{Map};
ghost use Rattle.map_call.specs.Checks.{map_check};
ghost use Rattle.machine.specs.Boards.{sets_board};

use board::{Refusal, Shape};
use pages::PageMap;

// An ordinary page, and a frame from U up and below F.
fn map_fits(s: Shape, page: u64, frame: usize) -> bool
    ensures { result ≡ (ordinary_page page && is_frame s frame) }
{
    address::ordinary_page(page) && (s.uncached..s.frames).contains(&frame)
}

// Numbers 2, 10 and 11 of map.
fn map_check(map: &PageMap, page: u64, frame: usize) -> Result<(), Refusal>
    ensures { result ≡ map_check map.now.shape map.now.words.now page frame }
{
    if !map_fits(map.shape, page, frame) {
        return Err(Refusal::OutOfRange);
    }
    if map.words[frame] != 0 {
        return Err(Refusal::FrameInUse);
    }
    if map.mapped_to(page).is_some() {
        return Err(Refusal::AlreadyMapped);
    }
    Ok(())
}

// Maps a page to a frame: drops the lines of the page and of the frame's prefix 1 range, zeroes the frame, sets its word.
pub fn map(
    s: Shape,
    slots: &[u32],
    words: &mut [u64],
    records: &mut [u64],
    cache: &[u8],
    memory: &mut [u8],
    uses: &[[[u8; 4]; 4]],
    page: u64,
    frame: usize,
    write: bool,
) -> Result<(), Refusal>
    ensures { (tag : Pending) → Map s (sets_board slots.now words.old records.old cache.now memory.old uses.now tag) page frame write (call_answer result) (sets_board slots.now words.new records.new cache.now memory.new uses.now tag) }
{
    s.fit(slots, words, records, cache, memory, uses)?;
    map_check(&PageMap { shape: s, words }, page, frame)?;
    visits::visit_names(s, records, cache, memory, visits::of_map(page, frame));
    line_bytes::zero_frame(memory, frame);
    words[frame] = pages::frame_word(page, write);
    Ok(())
}
