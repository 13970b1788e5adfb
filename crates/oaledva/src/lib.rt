// The calls for C and Rust, all but user access and lists of it: numbers and slices go in, and the answer comes back as one
// number. A flag is a number, and any but 0 says yes. No call asks anything of the numbers or of the buffers' lengths.
#![tactic(auto)]

ghost use Rattle.address.specs.Addresses.{global};
ghost use Rattle.board.specs.Lists.{is_yes};
ghost use Rattle.board.specs.declared.Pending.{Pending};
ghost use Rattle.board.specs.Shapes.{one_line};
ghost use Rattle.machine.specs.Clauses.{SupervisorAccess, Attach, Detach, Map, Unmap, Protect, Move, FlushAll, Tag, LoadAndMap, DropTag, LookNumber};
ghost use Rattle.crossing.specs.Packing.{unpacked, tag_of, access};
ghost use Rattle.crossing.specs.Returns.{returned, Meets};
ghost use Rattle.crossing.specs.Entries.{EntryReturned};
ghost use Rattle.look_place.specs.Lends.{LookPlace};
ghost use Rattle.machine.specs.Boards.{board};

use address::Global;
use board::{Answer, Shape};

// A supervisor's load or store by global address.
#[unsafe(no_mangle)]
pub extern "C" fn oaledva_supervisor_access(
    frames: usize,
    uncached: usize,
    processes: usize,
    lines: usize,
    slots: &[u32],
    words: &[u64],
    records: &mut [u64],
    cache: &mut [u8],
    memory: &mut [u8],
    set: u32,
    name: u64,
    store: u32,
    width: u32,
    address: u64,
    value: u32,
) -> u64
    ensures { SupervisorAccess (one_line frames uncached processes lines) (board slots.now words.now records.old cache.old memory.old (tag_of set name)) (access store width value) (global address) (unpacked result) (board slots.now words.now records.new cache.new memory.new (tag_of set name)) }
{
    let mut none: [[[u8; 4]; 4]; 0] = [];
    let s = Shape::one_line(frames, uncached, processes, lines);
    let tag = crossing::tag_of(set, name);
    let a = crossing::access(store, width, value);
    let r = supervisor_access::supervisor_access(
        s,
        slots,
        words,
        records,
        cache,
        memory,
        &mut none,
        tag,
        a,
        Global(address),
    );
    crossing::packed_access(r)
}

// Attaches a segment to a slot of a process.
#[unsafe(no_mangle)]
pub extern "C" fn oaledva_attach(
    frames: usize,
    uncached: usize,
    processes: usize,
    lines: usize,
    slots: &mut [u32],
    words: &[u64],
    records: &[u64],
    cache: &[u8],
    memory: &[u8],
    process: usize,
    slot: usize,
    segment: u64,
    write: u32,
) -> u64
    ensures { (tag : Pending) → Attach (one_line frames uncached processes lines) (board slots.old words.now records.now cache.now memory.now tag) process slot segment (is_yes write) (unpacked result) (board slots.new words.now records.now cache.now memory.now tag) }
{
    let s = Shape::one_line(frames, uncached, processes, lines);
    let r = slot_calls::attach(
        s,
        slots,
        words,
        records,
        cache,
        memory,
        &[],
        process,
        slot,
        segment,
        write != 0,
    );
    crossing::packed_call(r)
}

// Empties a slot of a process.
#[unsafe(no_mangle)]
pub extern "C" fn oaledva_detach(
    frames: usize,
    uncached: usize,
    processes: usize,
    lines: usize,
    slots: &mut [u32],
    words: &[u64],
    records: &[u64],
    cache: &[u8],
    memory: &[u8],
    process: usize,
    slot: usize,
) -> u64
    ensures { (tag : Pending) → Detach (one_line frames uncached processes lines) (board slots.old words.now records.now cache.now memory.now tag) process slot (unpacked result) (board slots.new words.now records.now cache.now memory.now tag) }
{
    let s = Shape::one_line(frames, uncached, processes, lines);
    let r = slot_calls::detach(s, slots, words, records, cache, memory, &[], process, slot);
    crossing::packed_call(r)
}

// Maps a page to a frame.
#[unsafe(no_mangle)]
pub extern "C" fn oaledva_map(
    frames: usize,
    uncached: usize,
    processes: usize,
    lines: usize,
    slots: &[u32],
    words: &mut [u64],
    records: &mut [u64],
    cache: &[u8],
    memory: &mut [u8],
    page: u64,
    frame: usize,
    write: u32,
) -> u64
    ensures { (tag : Pending) → Map (one_line frames uncached processes lines) (board slots.now words.old records.old cache.now memory.old tag) page frame (is_yes write) (unpacked result) (board slots.now words.new records.new cache.now memory.new tag) }
{
    let s = Shape::one_line(frames, uncached, processes, lines);
    let r = map_call::map(
        s,
        slots,
        words,
        records,
        cache,
        memory,
        &[],
        page,
        frame,
        write != 0,
    );
    crossing::packed_call(r)
}

// Unmaps a page.
#[unsafe(no_mangle)]
pub extern "C" fn oaledva_unmap(
    frames: usize,
    uncached: usize,
    processes: usize,
    lines: usize,
    slots: &[u32],
    words: &mut [u64],
    records: &mut [u64],
    cache: &[u8],
    memory: &mut [u8],
    page: u64,
) -> u64
    ensures { (tag : Pending) → Unmap (one_line frames uncached processes lines) (board slots.now words.old records.old cache.now memory.old tag) page (unpacked result) (board slots.now words.new records.new cache.now memory.new tag) }
{
    let s = Shape::one_line(frames, uncached, processes, lines);
    let r = page_calls::unmap(s, slots, words, records, cache, memory, &[], page);
    crossing::packed_call(r)
}

// Changes a page's write bit.
#[unsafe(no_mangle)]
pub extern "C" fn oaledva_protect(
    frames: usize,
    uncached: usize,
    processes: usize,
    lines: usize,
    slots: &[u32],
    words: &mut [u64],
    records: &mut [u64],
    cache: &[u8],
    memory: &mut [u8],
    page: u64,
    write: u32,
) -> u64
    ensures { (tag : Pending) → Protect (one_line frames uncached processes lines) (board slots.now words.old records.old cache.now memory.old tag) page (is_yes write) (unpacked result) (board slots.now words.new records.new cache.now memory.new tag) }
{
    let s = Shape::one_line(frames, uncached, processes, lines);
    let r = page_calls::protect(
        s,
        slots,
        words,
        records,
        cache,
        memory,
        &[],
        page,
        write != 0,
    );
    crossing::packed_call(r)
}

// Moves a page: its frame gets the new page, and keeps its bytes (CR 9).
#[unsafe(no_mangle)]
pub extern "C" fn oaledva_move(
    frames: usize,
    uncached: usize,
    processes: usize,
    lines: usize,
    slots: &[u32],
    words: &mut [u64],
    records: &mut [u64],
    cache: &[u8],
    memory: &mut [u8],
    page: u64,
    new_page: u64,
) -> u64
    ensures { (tag : Pending) → Move (one_line frames uncached processes lines) (board slots.now words.old records.old cache.now memory.old tag) page new_page (unpacked result) (board slots.now words.new records.new cache.now memory.new tag) }
{
    let s = Shape::one_line(frames, uncached, processes, lines);
    let r = move_call::move_page(s, slots, words, records, cache, memory, &[], page, new_page);
    crossing::packed_call(r)
}

// Writes back every changed line and drops all.
#[unsafe(no_mangle)]
pub extern "C" fn oaledva_flush_all(
    frames: usize,
    uncached: usize,
    processes: usize,
    lines: usize,
    slots: &[u32],
    words: &[u64],
    records: &mut [u64],
    cache: &[u8],
    memory: &mut [u8],
) -> u64
    ensures { (tag : Pending) → FlushAll (one_line frames uncached processes lines) (board slots.now words.now records.old cache.now memory.old tag) (unpacked result) (board slots.now words.now records.new cache.now memory.new tag) }
{
    let s = Shape::one_line(frames, uncached, processes, lines);
    let r = line_calls::flush_all(s, slots, words, records, cache, memory, &[]);
    crossing::packed_call(r)
}

// Remembers a line name.
#[unsafe(no_mangle)]
pub extern "C" fn oaledva_tag(
    frames: usize,
    uncached: usize,
    processes: usize,
    lines: usize,
    slots: &[u32],
    words: &[u64],
    records: &[u64],
    cache: &[u8],
    memory: &[u8],
    set: &mut u32,
    name: &mut u64,
    line: u64,
) -> u64
    ensures { Meets (Tag (one_line frames uncached processes lines) (board slots.now words.now records.now cache.now memory.now (tag_of set.old name.old)) line) set.old (returned result slots.now words.now records.now cache.now memory.now set.new name.new) }
{
    let s = Shape::one_line(frames, uncached, processes, lines);
    let mut tag = crossing::tag_of(*set, *name);
    let r = tag_calls::tag(s, slots, words, records, cache, memory, &[], &mut tag, line);
    crossing::put_tag(tag, set, name);
    crossing::packed_call(r)
}

// Loads the line of the pending name, and forgets the name.
#[unsafe(no_mangle)]
pub extern "C" fn oaledva_load_and_map(
    frames: usize,
    uncached: usize,
    processes: usize,
    lines: usize,
    slots: &[u32],
    words: &[u64],
    records: &mut [u64],
    cache: &mut [u8],
    memory: &mut [u8],
    set: &mut u32,
    name: &mut u64,
    line: usize,
) -> u64
    ensures { Meets (LoadAndMap (one_line frames uncached processes lines) (board slots.now words.now records.old cache.old memory.old (tag_of set.old name.old)) line) set.old (returned result slots.now words.now records.new cache.new memory.new set.new name.new) }
{
    let mut none: [[[u8; 4]; 4]; 0] = [];
    let s = Shape::one_line(frames, uncached, processes, lines);
    let mut tag = crossing::tag_of(*set, *name);
    let r = load_call::load_and_map(
        s, slots, words, records, cache, memory, &mut none, &mut tag, line,
    );
    crossing::put_tag(tag, set, name);
    crossing::packed_call(r)
}

// Forgets the pending name.
#[unsafe(no_mangle)]
pub extern "C" fn oaledva_drop_tag(
    frames: usize,
    uncached: usize,
    processes: usize,
    lines: usize,
    slots: &[u32],
    words: &[u64],
    records: &[u64],
    cache: &[u8],
    memory: &[u8],
    set: &mut u32,
    name: &mut u64,
) -> u64
    ensures { Meets (DropTag (one_line frames uncached processes lines) (board slots.now words.now records.now cache.now memory.now (tag_of set.old name.old))) set.old (returned result slots.now words.now records.now cache.now memory.now set.new name.new) }
{
    let s = Shape::one_line(frames, uncached, processes, lines);
    let mut tag = crossing::tag_of(*set, *name);
    let r = tag_calls::drop_tag(s, slots, words, records, cache, memory, &[], &mut tag);
    crossing::put_tag(tag, set, name);
    crossing::packed_call(r)
}

// The number that look gives.
#[unsafe(no_mangle)]
pub extern "C" fn oaledva_look_number(
    frames: usize,
    uncached: usize,
    processes: usize,
    lines: usize,
    slots: &[u32],
    words: &[u64],
    records: &[u64],
    cache: &[u8],
    memory: &[u8],
    line: usize,
) -> u32
    ensures { (tag : Pending) → LookNumber (one_line frames uncached processes lines) (board slots.now words.now records.now cache.now memory.now tag) line result }
{
    let s = Shape::one_line(frames, uncached, processes, lines);
    let r = line_calls::look_check(s, slots, words, records, cache, memory, &[], line);
    Answer::from(r).number
}

// Where the current sixteen bytes of a physical line stand in the caller's own buffers.
#[unsafe(no_mangle)]
pub extern "C" fn oaledva_look(
    frames: usize,
    uncached: usize,
    processes: usize,
    lines: usize,
    slots: &[u32],
    words: &[u64],
    records: &[u64],
    cache: &[u8],
    memory: &[u8],
    line: usize,
) -> u64
    ensures { (tag : Pending) → LookPlace (one_line frames uncached processes lines) (board slots.now words.now records.now cache.now memory.now tag) line result }
{
    let s = Shape::one_line(frames, uncached, processes, lines);
    look_place::place(s, slots, words, records, cache, memory, &[], line)
}

// Where the page table entry of a page stands. It asks no board.
#[unsafe(no_mangle)]
pub extern "C" fn oaledva_entry_of_page(page: u64) -> u64
    ensures { EntryReturned page result }
{
    crossing::returned_entry(page)
}
