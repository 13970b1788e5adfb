// Runs look on the session's board (F 4, U 1, L 2, P 2) and writes, for each look, the line, its number, and how long the part is that
// look gives, with its bytes. Physical line 256 is the first line of the page, and its place is 0.
#![tactic(auto)]

use address::Effective;
use board::{Answer, Pending, Shape};
use std::io;
use stores::Access;

// Segment 2048 with its write bit, and page 0x200000 with its own.
const SLOT: u32 = 4097;

const WORD: u64 = 8388611;

// The first line of the frame, where its bytes begin in memory, and the first line past memory.
const LINE: usize = 256;

const LINE_START: usize = 4096;

const PAST: usize = 1024;

// The board's buffers.
#[derive(Drop)]
struct Board {
    slots: [u32; 1024],
    words: [u64; 4],
    records: [u64; 4],
    cache: [u8; 32],
    memory: [u8; 16384],
}

fn shape(frames: usize) -> Shape {
    Shape::one_line(frames, 1, 2, 2)
}

// The bytes of a part, and how many there are.
fn write_part(rt: &impl Print, part: &[u8]) -> io::Result<()> {
    print!(rt; "{}", part.len())?;
    for byte in part {
        print!(rt; " {byte}")?;
    }
    println!(rt)
}

impl Board {
    // The session's board after its first two calls: the page is mapped, and process 0 has its segment, both for writing. But every byte
    // of the cache is 9, and of memory 7.
    fn mapped() -> Board {
        let mut board = Board {
            slots: [0; 1024],
            words: [0; 4],
            records: [0; 4],
            cache: [9; 32],
            memory: [7; 16384],
        };
        board.slots[0] = SLOT;
        board.words[1] = WORD;
        board
    }

    // A look at a line, by a caller who says that there are so many frames.
    fn look(&self, rt: &impl Print, frames: usize, line: usize) -> io::Result<()> {
        let s = shape(frames);
        let asked = line_calls::look_check(
            s,
            &self.slots,
            &self.words,
            &self.records,
            &self.cache,
            &self.memory,
            &[],
            line,
        );
        let part = line_calls::look(
            s,
            &self.slots,
            &self.words,
            &self.records,
            &self.cache,
            &self.memory,
            &[],
            line,
        );
        print!(rt; "{line} {} ", Answer::from(asked).number)?;
        write_part(rt, part)
    }

    // Process 0 loads or stores a byte, and the page's first line is looked at.
    fn turn(&mut self, rt: &impl Print, store: bool, address: u32) -> io::Result<()> {
        let a = Access {
            store,
            width: 1,
            value: 50,
        };
        let _ = user_access::user_access(
            shape(4),
            &self.slots,
            &self.words,
            &mut self.records,
            &mut self.cache,
            &mut self.memory,
            &mut [],
            Pending::none(),
            0,
            a,
            Effective(address),
        );
        self.look(rt, 4, LINE)
    }

    fn flush(&mut self) {
        let _ = line_calls::flush_all(
            shape(4),
            &self.slots,
            &self.words,
            &mut self.records,
            &self.cache,
            &mut self.memory,
            &[],
        );
    }
}

fn main(rt: HostRuntime) -> io::Result<()> {
    let mut board = Board::mapped();
    println!(rt; "line number length bytes")?;
    // after a store the part is the cache's: memory still has its 7
    board.turn(&rt, true, 3)?;
    println!(rt; "in memory {}", board.memory[LINE_START + 3])?;
    // flushed, and its place taken by the line at 32: the part is memory's
    board.flush();
    board.turn(&rt, false, 32)?;
    println!(rt; "in the cache {}", board.cache[3])?;
    // refused: a line past memory, and a caller who says three frames
    board.look(&rt, 4, PAST)?;
    board.look(&rt, 3, LINE)
}
