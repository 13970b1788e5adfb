// 01, "Calls": load-and-map.
#![tactic(auto)]

ghost use Rattle.std.specs.Prelude.{◌≡◌, ◌*◌, ◌<◌, length};
ghost use Rattle.address.specs.Layout.{page_lines};
ghost use Rattle.board.specs.Shapes.{matrices_of};
ghost use Rattle.stores.specs.Premises.{Sized};
ghost use Rattle.machine.specs.Calls.{loaded_with, loaded};
ghost use Rattle.machine.specs.Clauses.{LoadAndMap};
ghost use Rattle.load_call.specs.Checks.{load_frame, load_check};
ghost use Rattle.board.specs.Refusals.{call_answer};
ghost use Rattle.machine.specs.Boards.{sets_board};
ghost use Rattle.stores.specs.Stores.{store};

use address::PAGE_NAMES;
use board::{PAGE_LINES, Pending, Refusal, Shape};
use lines::LineRecords;
use pages::PageMap;

// Numbers 8 and 13 of load-and-map, or the page's permission.
fn load_frame(map: &PageMap, name: u64, line: usize) -> Result<bool, Refusal>
    ensures { result ≡ load_frame map.now.shape map.now.words.now name line }
{
    let f = map.mapped_to(name / PAGE_NAMES).ok_or(Refusal::Unmapped)?;
    if line != f * PAGE_LINES + (name % PAGE_NAMES) as usize {
        return Err(Refusal::WrongLine);
    }
    Ok(pages::word_writes(map.words[f]))
}

// Numbers 2, 3, 8 and 13 of load-and-map, or the page's permission.
fn load_check(map: &PageMap, pending: Pending, line: usize) -> Result<bool, Refusal>
    ensures { result ≡ load_check map.now.shape map.now.words.now pending line }
{
    if line >= PAGE_LINES * map.shape.frames {
        return Err(Refusal::OutOfRange);
    }
    if !pending.set {
        return Err(Refusal::TagState);
    }
    load_frame(map, pending.name, line)
}

// Fills a line, in the victim of its set, unless it is held already.
fn load_line(
    s: Shape,
    records: &mut [u64],
    cache: &mut [u8],
    memory: &mut [u8],
    uses: &mut [[[u8; 4]; 4]],
    name: u64,
    line: usize,
    write: bool,
)
    requires { Sized s records.old cache.old memory.old × (length uses.old ≡ matrices_of s) × (line < page_lines * s.frames) }
    ensures { loaded_with (store records.new cache.new memory.new) uses.new ≡ loaded s name line write (store records.old cache.old memory.old) uses.old }
{
    match (LineRecords { shape: s, records }).room_for(uses, name) {
        None => {}
        Some(to) => {
            lines::note_use(s, uses, to);
            stores::insert(s, records, cache, memory, to, name, line, write);
        }
    }
}

// Loads the line of the pending name, and forgets the name.
pub fn load_and_map(
    s: Shape,
    slots: &[u32],
    words: &[u64],
    records: &mut [u64],
    cache: &mut [u8],
    memory: &mut [u8],
    uses: &mut [[[u8; 4]; 4]],
    pending: &mut Pending,
    line: usize,
) -> Result<(), Refusal>
    ensures { LoadAndMap s (sets_board slots.now words.now records.old cache.old memory.old uses.old pending.old) line (call_answer result) (sets_board slots.now words.now records.new cache.new memory.new uses.new pending.new) }
{
    s.fit(slots, words, records, cache, memory, uses)?;
    let write = load_check(&PageMap { shape: s, words }, *pending, line)?;
    load_line(s, records, cache, memory, uses, pending.name, line, write);
    *pending = Pending::none();
    Ok(())
}
