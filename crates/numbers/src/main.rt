// Runs the numbers of 01's "Numbers to check" that are to be run, the counts of lines and processes by CR 7, and writes the answers.
#![tactic(auto)]

ghost use Rattle.std.specs.Prelude.{◌≤◌, ◌<◌, ◌^◌};

use address::Effective;
use board::{Answer, LINE_BYTES, PAGE_BYTES, PROCESS_SLOTS, Pending, RECORD_WORDS, Shape};
use slot_calls::attach;
use std::io;
use stores::Access;
use user_access::user_access;

// CR 7's numbers, by their values, which this program is there to show: the most lines, and the next count with one bit set; the most
// processes, and one more.
const MOST_LINES: usize = 65536;

const OVER_LINES: usize = 131072;

const MOST_PROCESSES: usize = 64;

const OVER_PROCESSES: usize = 65;

// A board of one frame.
fn shape(processes: usize, lines: usize) -> Shape {
    Shape::one_line(1, 0, processes, lines)
}

// Width 4 at address 2, on a fresh board.
fn misaligned() -> Answer {
    let load = Access {
        store: false,
        width: 4,
        value: 0,
    };
    Answer::from(user_access(
        shape(1, 1),
        &[0; PROCESS_SLOTS],
        &[0; 1],
        &mut [0; RECORD_WORDS],
        &mut [0; LINE_BYTES],
        &mut [0; PAGE_BYTES],
        &mut [],
        Pending::none(),
        0,
        load,
        Effective(2),
    ))
}

// An attach for the last process of a board with one frame.
fn attached(
    processes: usize,
    lines: usize,
    slots: &mut [u32],
    records: &[u64],
    cache: &[u8],
) -> Answer
    requires { 1 ≤ processes }
{
    Answer::from(attach(
        shape(processes, lines),
        slots,
        &[0; 1],
        records,
        cache,
        &[0; PAGE_BYTES],
        &[],
        processes - 1,
        0,
        2048,
        true,
    ))
}

// With one process and this many lines. The call gets as much of the buffers as the count says, so it is the count that is refused.
fn with_lines(rt: &impl Print, lines: usize, records: &[u64], cache: &[u8]) -> io::Result<()>
    requires { lines < 2 ^ 32 }
{
    let r = RECORD_WORDS * lines;
    let c = LINE_BYTES * lines;
    if r <= records.len() && c <= cache.len() {
        let a = attached(
            1,
            lines,
            &mut [0; PROCESS_SLOTS],
            &records[..r],
            &cache[..c],
        );
        println!(rt; "L = {lines}: {}", a.number)?;
    }
    Ok(())
}

// With one line and this many processes, likewise.
fn with_processes(rt: &impl Print, processes: usize, slots: &mut [u32]) -> io::Result<()>
    requires { (1 ≤ processes) × (processes < 2 ^ 32) }
{
    let n = PROCESS_SLOTS * processes;
    if n <= slots.len() {
        let a = attached(
            processes,
            1,
            &mut slots[..n],
            &[0; RECORD_WORDS],
            &[0; LINE_BYTES],
        );
        println!(rt; "P = {processes}: {}", a.number)?;
    }
    Ok(())
}

fn line_counts(rt: &impl Print, records: &[u64], cache: &[u8]) -> io::Result<()> {
    with_lines(rt, 3, records, cache)?;
    with_lines(rt, 0, records, cache)?;
    with_lines(rt, MOST_LINES, records, cache)?;
    with_lines(rt, OVER_LINES, records, cache)
}

fn process_counts(rt: &impl Print, slots: &mut [u32]) -> io::Result<()> {
    with_processes(rt, MOST_PROCESSES, slots)?;
    with_processes(rt, OVER_PROCESSES, slots)
}

// Buffers for the largest counts of lines.
fn run_lines(rt: &impl Print) -> io::Result<()> {
    let records: [u64; RECORD_WORDS * OVER_LINES] = [0; RECORD_WORDS * OVER_LINES];
    let cache: [u8; LINE_BYTES * OVER_LINES] = [0; LINE_BYTES * OVER_LINES];
    line_counts(rt, &records, &cache)
}

// And of processes.
fn run_processes(rt: &impl Print) -> io::Result<()> {
    let mut slots: [u32; PROCESS_SLOTS * OVER_PROCESSES] = [0; PROCESS_SLOTS * OVER_PROCESSES];
    process_counts(rt, &mut slots)
}

fn main(rt: HostRuntime) -> io::Result<()> {
    println!(rt; "width 4 at address 2: {}", misaligned().number)?;
    run_lines(&rt)?;
    run_processes(&rt)
}
