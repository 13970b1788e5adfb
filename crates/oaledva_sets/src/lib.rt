// The calls of the edition with sets of four (CR 4) for C and Rust, all but user access and lists of it, as `oaledva` has those of
// 01's: the sets' matrices come after memory.
#![tactic(auto)]

ghost use Rattle.address.specs.Addresses.{global};
ghost use Rattle.board.specs.Lists.{is_yes};
ghost use Rattle.board.specs.declared.Pending.{Pending};
ghost use Rattle.board.specs.Shapes.{four_lines};
ghost use Rattle.machine.specs.Clauses.{SupervisorAccess, Attach, Detach, Map, Unmap, Protect, Move, FlushAll, Tag, LoadAndMap, DropTag, LookNumber};
ghost use Rattle.crossing.specs.Packing.{unpacked, tag_of, access};
ghost use Rattle.crossing.specs.Returns.{sets_returned, Meets};
ghost use Rattle.look_place.specs.Lends.{LookPlace};
ghost use Rattle.machine.specs.Boards.{sets_board};

use address::Global;
use board::{Answer, Shape};

// A supervisor's load or store by global address.
#[unsafe(no_mangle)]
pub extern "C" fn oaledva_sets_supervisor_access(
    frames: usize,
    uncached: usize,
    processes: usize,
    lines: usize,
    slots: &[u32],
    words: &[u64],
    records: &mut [u64],
    cache: &mut [u8],
    memory: &mut [u8],
    uses: &mut [[[u8; 4]; 4]],
    set: u32,
    name: u64,
    store: u32,
    width: u32,
    address: u64,
    value: u32,
) -> u64
    ensures { SupervisorAccess (four_lines frames uncached processes lines) (sets_board slots.now words.now records.old cache.old memory.old uses.old (tag_of set name)) (access store width value) (global address) (unpacked result) (sets_board slots.now words.now records.new cache.new memory.new uses.new (tag_of set name)) }
{
    let s = Shape::four_lines(frames, uncached, processes, lines);
    let tag = crossing::tag_of(set, name);
    let a = crossing::access(store, width, value);
    let r = supervisor_access::supervisor_access(
        s,
        slots,
        words,
        records,
        cache,
        memory,
        uses,
        tag,
        a,
        Global(address),
    );
    crossing::packed_access(r)
}

// Attaches a segment to a slot of a process.
#[unsafe(no_mangle)]
pub extern "C" fn oaledva_sets_attach(
    frames: usize,
    uncached: usize,
    processes: usize,
    lines: usize,
    slots: &mut [u32],
    words: &[u64],
    records: &[u64],
    cache: &[u8],
    memory: &[u8],
    uses: &[[[u8; 4]; 4]],
    process: usize,
    slot: usize,
    segment: u64,
    write: u32,
) -> u64
    ensures { (tag : Pending) → Attach (four_lines frames uncached processes lines) (sets_board slots.old words.now records.now cache.now memory.now uses.now tag) process slot segment (is_yes write) (unpacked result) (sets_board slots.new words.now records.now cache.now memory.now uses.now tag) }
{
    let s = Shape::four_lines(frames, uncached, processes, lines);
    let r = slot_calls::attach(
        s,
        slots,
        words,
        records,
        cache,
        memory,
        uses,
        process,
        slot,
        segment,
        write != 0,
    );
    crossing::packed_call(r)
}

// Empties a slot of a process.
#[unsafe(no_mangle)]
pub extern "C" fn oaledva_sets_detach(
    frames: usize,
    uncached: usize,
    processes: usize,
    lines: usize,
    slots: &mut [u32],
    words: &[u64],
    records: &[u64],
    cache: &[u8],
    memory: &[u8],
    uses: &[[[u8; 4]; 4]],
    process: usize,
    slot: usize,
) -> u64
    ensures { (tag : Pending) → Detach (four_lines frames uncached processes lines) (sets_board slots.old words.now records.now cache.now memory.now uses.now tag) process slot (unpacked result) (sets_board slots.new words.now records.now cache.now memory.now uses.now tag) }
{
    let s = Shape::four_lines(frames, uncached, processes, lines);
    let r = slot_calls::detach(s, slots, words, records, cache, memory, uses, process, slot);
    crossing::packed_call(r)
}

// Maps a page to a frame.
#[unsafe(no_mangle)]
pub extern "C" fn oaledva_sets_map(
    frames: usize,
    uncached: usize,
    processes: usize,
    lines: usize,
    slots: &[u32],
    words: &mut [u64],
    records: &mut [u64],
    cache: &[u8],
    memory: &mut [u8],
    uses: &[[[u8; 4]; 4]],
    page: u64,
    frame: usize,
    write: u32,
) -> u64
    ensures { (tag : Pending) → Map (four_lines frames uncached processes lines) (sets_board slots.now words.old records.old cache.now memory.old uses.now tag) page frame (is_yes write) (unpacked result) (sets_board slots.now words.new records.new cache.now memory.new uses.now tag) }
{
    let s = Shape::four_lines(frames, uncached, processes, lines);
    let r = map_call::map(
        s,
        slots,
        words,
        records,
        cache,
        memory,
        uses,
        page,
        frame,
        write != 0,
    );
    crossing::packed_call(r)
}

// Unmaps a page.
#[unsafe(no_mangle)]
pub extern "C" fn oaledva_sets_unmap(
    frames: usize,
    uncached: usize,
    processes: usize,
    lines: usize,
    slots: &[u32],
    words: &mut [u64],
    records: &mut [u64],
    cache: &[u8],
    memory: &mut [u8],
    uses: &[[[u8; 4]; 4]],
    page: u64,
) -> u64
    ensures { (tag : Pending) → Unmap (four_lines frames uncached processes lines) (sets_board slots.now words.old records.old cache.now memory.old uses.now tag) page (unpacked result) (sets_board slots.now words.new records.new cache.now memory.new uses.now tag) }
{
    let s = Shape::four_lines(frames, uncached, processes, lines);
    let r = page_calls::unmap(s, slots, words, records, cache, memory, uses, page);
    crossing::packed_call(r)
}

// Changes a page's write bit.
#[unsafe(no_mangle)]
pub extern "C" fn oaledva_sets_protect(
    frames: usize,
    uncached: usize,
    processes: usize,
    lines: usize,
    slots: &[u32],
    words: &mut [u64],
    records: &mut [u64],
    cache: &[u8],
    memory: &mut [u8],
    uses: &[[[u8; 4]; 4]],
    page: u64,
    write: u32,
) -> u64
    ensures { (tag : Pending) → Protect (four_lines frames uncached processes lines) (sets_board slots.now words.old records.old cache.now memory.old uses.now tag) page (is_yes write) (unpacked result) (sets_board slots.now words.new records.new cache.now memory.new uses.now tag) }
{
    let s = Shape::four_lines(frames, uncached, processes, lines);
    let r = page_calls::protect(
        s,
        slots,
        words,
        records,
        cache,
        memory,
        uses,
        page,
        write != 0,
    );
    crossing::packed_call(r)
}

// Moves a page: its frame gets the new page, and keeps its bytes (CR 9).
#[unsafe(no_mangle)]
pub extern "C" fn oaledva_sets_move(
    frames: usize,
    uncached: usize,
    processes: usize,
    lines: usize,
    slots: &[u32],
    words: &mut [u64],
    records: &mut [u64],
    cache: &[u8],
    memory: &mut [u8],
    uses: &[[[u8; 4]; 4]],
    page: u64,
    new_page: u64,
) -> u64
    ensures { (tag : Pending) → Move (four_lines frames uncached processes lines) (sets_board slots.now words.old records.old cache.now memory.old uses.now tag) page new_page (unpacked result) (sets_board slots.now words.new records.new cache.now memory.new uses.now tag) }
{
    let s = Shape::four_lines(frames, uncached, processes, lines);
    let r = move_call::move_page(
        s, slots, words, records, cache, memory, uses, page, new_page,
    );
    crossing::packed_call(r)
}

// Writes back every changed line and drops all.
#[unsafe(no_mangle)]
pub extern "C" fn oaledva_sets_flush_all(
    frames: usize,
    uncached: usize,
    processes: usize,
    lines: usize,
    slots: &[u32],
    words: &[u64],
    records: &mut [u64],
    cache: &[u8],
    memory: &mut [u8],
    uses: &[[[u8; 4]; 4]],
) -> u64
    ensures { (tag : Pending) → FlushAll (four_lines frames uncached processes lines) (sets_board slots.now words.now records.old cache.now memory.old uses.now tag) (unpacked result) (sets_board slots.now words.now records.new cache.now memory.new uses.now tag) }
{
    let s = Shape::four_lines(frames, uncached, processes, lines);
    let r = line_calls::flush_all(s, slots, words, records, cache, memory, uses);
    crossing::packed_call(r)
}

// Remembers a line name.
#[unsafe(no_mangle)]
pub extern "C" fn oaledva_sets_tag(
    frames: usize,
    uncached: usize,
    processes: usize,
    lines: usize,
    slots: &[u32],
    words: &[u64],
    records: &[u64],
    cache: &[u8],
    memory: &[u8],
    uses: &[[[u8; 4]; 4]],
    set: &mut u32,
    name: &mut u64,
    line: u64,
) -> u64
    ensures { Meets (Tag (four_lines frames uncached processes lines) (sets_board slots.now words.now records.now cache.now memory.now uses.now (tag_of set.old name.old)) line) set.old (sets_returned result slots.now words.now records.now cache.now memory.now uses.now set.new name.new) }
{
    let s = Shape::four_lines(frames, uncached, processes, lines);
    let mut tag = crossing::tag_of(*set, *name);
    let r = tag_calls::tag(
        s, slots, words, records, cache, memory, uses, &mut tag, line,
    );
    crossing::put_tag(tag, set, name);
    crossing::packed_call(r)
}

// Loads the line of the pending name, and forgets the name.
#[unsafe(no_mangle)]
pub extern "C" fn oaledva_sets_load_and_map(
    frames: usize,
    uncached: usize,
    processes: usize,
    lines: usize,
    slots: &[u32],
    words: &[u64],
    records: &mut [u64],
    cache: &mut [u8],
    memory: &mut [u8],
    uses: &mut [[[u8; 4]; 4]],
    set: &mut u32,
    name: &mut u64,
    line: usize,
) -> u64
    ensures { Meets (LoadAndMap (four_lines frames uncached processes lines) (sets_board slots.now words.now records.old cache.old memory.old uses.old (tag_of set.old name.old)) line) set.old (sets_returned result slots.now words.now records.new cache.new memory.new uses.new set.new name.new) }
{
    let s = Shape::four_lines(frames, uncached, processes, lines);
    let mut tag = crossing::tag_of(*set, *name);
    let r = load_call::load_and_map(
        s, slots, words, records, cache, memory, uses, &mut tag, line,
    );
    crossing::put_tag(tag, set, name);
    crossing::packed_call(r)
}

// Forgets the pending name.
#[unsafe(no_mangle)]
pub extern "C" fn oaledva_sets_drop_tag(
    frames: usize,
    uncached: usize,
    processes: usize,
    lines: usize,
    slots: &[u32],
    words: &[u64],
    records: &[u64],
    cache: &[u8],
    memory: &[u8],
    uses: &[[[u8; 4]; 4]],
    set: &mut u32,
    name: &mut u64,
) -> u64
    ensures { Meets (DropTag (four_lines frames uncached processes lines) (sets_board slots.now words.now records.now cache.now memory.now uses.now (tag_of set.old name.old))) set.old (sets_returned result slots.now words.now records.now cache.now memory.now uses.now set.new name.new) }
{
    let s = Shape::four_lines(frames, uncached, processes, lines);
    let mut tag = crossing::tag_of(*set, *name);
    let r = tag_calls::drop_tag(s, slots, words, records, cache, memory, uses, &mut tag);
    crossing::put_tag(tag, set, name);
    crossing::packed_call(r)
}

// The number that look gives.
#[unsafe(no_mangle)]
pub extern "C" fn oaledva_sets_look_number(
    frames: usize,
    uncached: usize,
    processes: usize,
    lines: usize,
    slots: &[u32],
    words: &[u64],
    records: &[u64],
    cache: &[u8],
    memory: &[u8],
    uses: &[[[u8; 4]; 4]],
    line: usize,
) -> u32
    ensures { (tag : Pending) → LookNumber (four_lines frames uncached processes lines) (sets_board slots.now words.now records.now cache.now memory.now uses.now tag) line result }
{
    let s = Shape::four_lines(frames, uncached, processes, lines);
    let r = line_calls::look_check(s, slots, words, records, cache, memory, uses, line);
    Answer::from(r).number
}

// Where the current sixteen bytes of a physical line stand in the caller's own buffers.
#[unsafe(no_mangle)]
pub extern "C" fn oaledva_sets_look(
    frames: usize,
    uncached: usize,
    processes: usize,
    lines: usize,
    slots: &[u32],
    words: &[u64],
    records: &[u64],
    cache: &[u8],
    memory: &[u8],
    uses: &[[[u8; 4]; 4]],
    line: usize,
) -> u64
    ensures { (tag : Pending) → LookPlace (four_lines frames uncached processes lines) (sets_board slots.now words.now records.now cache.now memory.now uses.now tag) line result }
{
    let s = Shape::four_lines(frames, uncached, processes, lines);
    look_place::place(s, slots, words, records, cache, memory, uses, line)
}
