// Runs protect and flush all over two line records (F 1, U 0, P 1, L 2), every number of theirs, and writes a row for each call:
// the answer, the two lines, and the frame word (protect) or two bytes of memory (flush all) after it.
// Line 0's place is 0, line 1's is 1; memory has physical lines 0 to 255; the page 0x200000 is mapped to frame 0, writable.
#![tactic(auto)]

ghost use Rattle.std.specs.Prelude.{◌≤◌};

use board::{Answer, MAX_FRAMES, MAX_LINES, MAX_PROCESSES, PROCESS_SLOTS, Refusal, Shape};
use lines::Line;
use std::io;

const PAGE: u64 = 2097152;

// The line names of the page begin here.
const NAME: u64 = 536870912;

// The word of the page's frame: page × 4 + 2 + 1.
const WORD: u64 = 8388611;

// The slots of the most processes; the first numbers past their limits (of lines, the next with one bit set), and the slots of so many
// processes.
const MOST_SLOTS: usize = PROCESS_SLOTS * MAX_PROCESSES;

const OVER_FRAMES: usize = MAX_FRAMES + 1;

const OVER_PROCESSES: usize = MAX_PROCESSES + 1;

const OVER_LINES: usize = 2 * MAX_LINES;

const OVER_SLOTS: usize = PROCESS_SLOTS * OVER_PROCESSES;

// How many rows there are of each call.
const ROWS: u64 = 18;

// What a call is given: the numbers of the board, and how much of each buffer.
#[derive(Clone, Copy)]
pub struct Sizes {
    pub shape: Shape,
    pub slots: usize,
    pub words: usize,
    pub cache: usize,
    pub memory: usize,
}

fn sized(
    frames: usize,
    uncached: usize,
    processes: usize,
    lines: usize,
    slots: usize,
    words: usize,
    cache: usize,
    memory: usize,
) -> Sizes {
    Sizes {
        shape: Shape::one_line(frames, uncached, processes, lines),
        slots,
        words,
        cache,
        memory,
    }
}

// What the rows are given: all as it should be, but for one thing in rows 5 to 17: those are refused by number 1. Where a number is wrong the lengths agree
// with it if they can. Row 18 has the most processes.
fn given(row: u64) -> Sizes {
    match row {
        // slots, words, lines, cache, memory
        5 => sized(1, 0, 1, 2, 511, 1, 32, 4096),
        6 => sized(1, 0, 1, 2, 512, 0, 32, 4096),
        7 => sized(1, 0, 1, 1, 512, 1, 16, 4096),
        8 => sized(1, 0, 1, 2, 512, 1, 31, 4096),
        9 => sized(1, 0, 1, 2, 512, 1, 32, 4095),
        // F 0 and over its limit; U above F; P 0 and over; L 0, 3 and over
        10 => sized(0, 0, 1, 2, 512, 0, 32, 0),
        11 => sized(OVER_FRAMES, 0, 1, 2, 512, 1, 32, 4096),
        12 => sized(1, 2, 1, 2, 512, 1, 32, 4096),
        13 => sized(1, 0, 0, 2, 0, 1, 32, 4096),
        14 => sized(1, 0, OVER_PROCESSES, 2, OVER_SLOTS, 1, 32, 4096),
        15 => sized(1, 0, 1, 0, 512, 1, 0, 4096),
        16 => sized(1, 0, 1, 3, 512, 1, 32, 4096),
        17 => sized(1, 0, 1, OVER_LINES, 512, 1, 32, 4096),
        18 => sized(1, 0, MAX_PROCESSES, 2, MOST_SLOTS, 1, 32, 4096),
        _ => sized(1, 0, 1, 2, 512, 1, 32, 4096),
    }
}

// A line that may be written.
fn line(valid: bool, name: u64, physical: u64, changed: bool) -> Line {
    Line {
        valid,
        name,
        physical,
        changed,
        write: true,
    }
}

// The page that protect is given.
fn page(row: u64) -> u64 {
    match row {
        3 => 0,
        4 => PAGE + 1,
        _ => PAGE,
    }
}

// The lines that protect is given.
fn protect_lines(row: u64) -> [Line; 2] {
    match row {
        // line 0 is of the next page, line 1's physical line is past memory
        2 => [
            line(true, NAME + 256, 3, true),
            line(true, NAME + 1, 256, true),
        ],
        // line 0 is of page 0, and of the page that is not mapped
        3 => [line(true, 0, 3, true), line(true, NAME + 1, 5, true)],
        4 => [
            line(true, NAME + 256, 3, true),
            line(true, NAME + 1, 5, true),
        ],
        // line 1 has line 0's name, so it is not at its place
        _ => [line(true, NAME, 3, true), line(true, NAME, 5, true)],
    }
}

// The lines that flush all is given.
fn flush_lines(row: u64) -> [Line; 2] {
    match row {
        // a held changed line is written back, a misplaced one stays
        1 => [line(true, NAME, 3, true), line(true, NAME, 5, true)],
        // two lines of one physical line: the higher place is written last
        2 => [line(true, NAME, 4, true), line(true, NAME + 1, 4, true)],
        // a clean line is dropped, a line that is not valid stays; neither is written
        3 => [line(true, NAME, 6, false), line(false, NAME + 1, 6, true)],
        // lines whose physical line is past memory stay, as does memory
        4 => [line(true, NAME, 256, true), line(true, NAME + 1, 257, true)],
        _ => [line(true, NAME, 7, true), line(true, NAME + 1, 7, true)],
    }
}

// The byte of memory that flush all's row shows, with the one after it.
fn shown(row: u64) -> usize
    ensures { result ≤ 4094 }
{
    match row {
        1 => 48,
        2 => 64,
        3 => 96,
        4 => 4094,
        _ => 112,
    }
}

fn write_line(rt: &impl Print, l: Line) -> io::Result<()> {
    let valid = u64::from(l.valid);
    let changed = u64::from(l.changed);
    let write = u64::from(l.write);
    print!(rt; "{valid} {} {} {changed} {write} ", l.name, l.physical)
}

// The answer and the lines.
fn write_row(
    rt: &impl Print,
    row: u64,
    r: Result<(), Refusal>,
    lines: &[Line; 2],
) -> io::Result<()> {
    print!(rt; "{row} {} ", Answer::from(r))?;
    write_line(rt, lines[0])?;
    write_line(rt, lines[1])
}

// Protect the page, read-only.
fn protect_row(
    rt: &impl Print,
    row: u64,
    slots: &[u32],
    cache: &[u8],
    memory: &[u8],
) -> io::Result<()> {
    let z = given(row);
    let mut words = [WORD];
    let mut lines = protect_lines(row);
    let r = records::protect(
        z.shape,
        &slots[..z.slots.min(slots.len())],
        &mut words[..z.words.min(1)],
        &mut lines,
        &cache[..z.cache.min(cache.len())],
        &memory[..z.memory.min(memory.len())],
        page(row),
        false,
    );
    write_row(rt, row, r, &lines)?;
    println!(rt; "{}", words[0])
}

// Flush all, with the byte of memory that its row shows, and the one after it.
fn flush_row(
    rt: &impl Print,
    row: u64,
    slots: &[u32],
    cache: &[u8],
    memory: &mut [u8; 4096],
) -> io::Result<()> {
    let z = given(row);
    let words = [WORD];
    let mut lines = flush_lines(row);
    let r = records::flush_all(
        z.shape,
        &slots[..z.slots.min(slots.len())],
        &words[..z.words.min(1)],
        &mut lines,
        &cache[..z.cache.min(cache.len())],
        &mut memory[..z.memory.min(4096)],
    );
    write_row(rt, row, r, &lines)?;
    let at = shown(row);
    println!(rt; "{} {}", memory[at], memory[at + 1])
}

// The rows of both calls. Cache line 0 is all 5, line 1 begins with 9.
fn main(rt: HostRuntime) -> io::Result<()> {
    let slots: [u32; OVER_SLOTS] = [0; OVER_SLOTS];
    let mut cache: [u8; 32] = [5; 32];
    cache[16] = 9;
    let mut memory: [u8; 4096] = [0; 4096];
    println!(rt;
        "protect: row number value mark, valid name physical changed write of line 0, of line 1, word"
    )?;
    for row in 1..=ROWS {
        protect_row(&rt, row, &slots, &cache, &memory)?;
    }
    println!(rt;
        "flush all: row number value mark, valid name physical changed write of line 0, of line 1, two bytes"
    )?;
    for row in 1..=ROWS {
        flush_row(&rt, row, &slots, &cache, &mut memory)?;
    }
    Ok(())
}
