// Runs tag, load-and-map and drop tag on a small board (F 4, U 1, L 2, P 2), and writes the answer and the tag after each.
#![tactic(auto)]

use board::{Answer, Pending, Refusal, Shape};
use std::io;

const PAGE: u64 = 2097152;

const FRAME: usize = 1;

// The line names of the page begin here, and the physical lines of the frame here.
const NAME: u64 = 536870912;

const LINE: usize = 256;

// How many calls there are.
const CALLS: u64 = 13;

// The board's buffers, and its tag.
#[derive(Drop)]
struct Board {
    slots: [u32; 1024],
    words: [u64; 4],
    records: [u64; 4],
    cache: [u8; 32],
    memory: [u8; 16384],
    pending: Pending,
}

// A call: tag with a name, load-and-map with a physical line, the map, or drop tag on a board of so many frames.
#[derive(Clone, Copy)]
pub enum Asked {
    Tag(u64),
    Load(usize),
    Map,
    Drop(usize),
}

// The calls, in their order.
fn call(number: u64) -> Asked {
    match number {
        // a name is taken; a second is refused while it is pending; a name of no ordinary page is refused
        1 => Asked::Tag(NAME),
        2 => Asked::Tag(NAME + 1),
        3 => Asked::Tag(5),
        // a line past memory, and a page that is not mapped
        4 => Asked::Load(4 * LINE),
        5 => Asked::Load(LINE),
        // the page is mapped; the line beside the name's is refused
        6 => Asked::Map,
        7 => Asked::Load(LINE + 1),
        // the line is loaded and the tag is gone; nothing is pending for a second
        8 => Asked::Load(LINE),
        9 => Asked::Load(LINE),
        // nothing to drop; a name is taken, kept on a board of another size, and dropped
        10 => Asked::Drop(4),
        11 => Asked::Tag(NAME + 1),
        12 => Asked::Drop(3),
        _ => Asked::Drop(4),
    }
}

fn shape(frames: usize) -> Shape {
    Shape::one_line(frames, 1, 2, 2)
}

impl Board {
    // Fresh, with cache bytes and memory that are not zero.
    fn fresh() -> Board {
        Board {
            slots: [0; 1024],
            words: [0; 4],
            records: [0; 4],
            cache: [7; 32],
            memory: [7; 16384],
            pending: Pending::none(),
        }
    }

    // One call.
    fn make(&mut self, c: Asked) -> Result<(), Refusal> {
        match c {
            Asked::Tag(name) => tag_calls::tag(
                shape(4),
                &self.slots,
                &self.words,
                &self.records,
                &self.cache,
                &self.memory,
                &[],
                &mut self.pending,
                name,
            ),
            Asked::Load(line) => load_call::load_and_map(
                shape(4),
                &self.slots,
                &self.words,
                &mut self.records,
                &mut self.cache,
                &mut self.memory,
                &mut [],
                &mut self.pending,
                line,
            ),
            Asked::Map => map_call::map(
                shape(4),
                &self.slots,
                &mut self.words,
                &mut self.records,
                &self.cache,
                &mut self.memory,
                &[],
                PAGE,
                FRAME,
                true,
            ),
            Asked::Drop(frames) => tag_calls::drop_tag(
                shape(frames),
                &self.slots,
                &self.words,
                &self.records,
                &self.cache,
                &self.memory,
                &[],
                &mut self.pending,
            ),
        }
    }

    // The record and a cached byte of the line that was loaded, and a byte of the place beside it.
    fn write_end(&self, rt: &impl Print) -> io::Result<()> {
        println!(rt; "name {}", self.records[0])?;
        println!(rt; "word {}", self.records[1])?;
        println!(rt; "loaded {}", self.cache[0])?;
        println!(rt; "beside {}", self.cache[16])
    }
}

fn main(rt: HostRuntime) -> io::Result<()> {
    let mut board = Board::fresh();
    println!(rt; "call answer set name")?;
    for number in 1..=CALLS {
        let a = Answer::from(board.make(call(number)));
        let tag = board.pending;
        println!(rt; "{number} {} {} {}", a.number, u64::from(tag.set), tag.name)?;
    }
    board.write_end(&rt)
}
