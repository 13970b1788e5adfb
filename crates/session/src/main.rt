// Runs 01's session (F 4, U 1, L 2, P 2) and writes its table.
#![tactic(auto)]

use address::Effective;
use board::{Answer, Pending, Shape};
use std::io;
use stores::Access;

const PAGE: u64 = 2097152;

const FRAME: usize = 1;

const SEGMENT: u64 = 2048;

// How many calls the session has.
const CALLS: u64 = 12;

// The board's buffers.
#[derive(Drop)]
struct Board {
    slots: [u32; 1024],
    words: [u64; 4],
    records: [u64; 4],
    cache: [u8; 32],
    memory: [u8; 16384],
}

// A call of the session: a map with its write bit, the attach, the unmap, or a user access (process, access, address).
#[derive(Clone, Copy)]
pub enum Asked {
    Map(bool),
    Attach,
    Unmap,
    User(usize, Access, u32),
}

fn load() -> Access {
    Access {
        store: false,
        width: 1,
        value: 0,
    }
}

fn store(width: u32, value: u32) -> Access {
    Access {
        store: true,
        width,
        value,
    }
}

// The calls, in their order.
fn call(number: u64) -> Asked {
    match number {
        1 => Asked::Map(true),
        2 => Asked::Attach,
        3 => Asked::User(0, store(4, 50), 0),
        5 => Asked::User(0, load(), 32),
        7 => Asked::User(1, load(), 3),
        8 => Asked::Unmap,
        10 => Asked::Map(false),
        12 => Asked::User(0, store(1, 1), 3),
        _ => Asked::User(0, load(), 3),
    }
}

impl Board {
    // Fresh, with memory that is not zero.
    fn fresh() -> Board {
        Board {
            slots: [0; 1024],
            words: [0; 4],
            records: [0; 4],
            cache: [7; 32],
            memory: [7; 16384],
        }
    }

    // One call.
    fn answer(&mut self, c: Asked) -> Answer {
        let s = Shape::one_line(4, 1, 2, 2);
        match c {
            Asked::Map(write) => Answer::from(map_call::map(
                s,
                &self.slots,
                &mut self.words,
                &mut self.records,
                &self.cache,
                &mut self.memory,
                &[],
                PAGE,
                FRAME,
                write,
            )),
            Asked::Attach => Answer::from(slot_calls::attach(
                s,
                &mut self.slots,
                &self.words,
                &self.records,
                &self.cache,
                &self.memory,
                &[],
                0,
                0,
                SEGMENT,
                true,
            )),
            Asked::Unmap => Answer::from(page_calls::unmap(
                s,
                &self.slots,
                &mut self.words,
                &mut self.records,
                &self.cache,
                &mut self.memory,
                &[],
                PAGE,
            )),
            Asked::User(process, a, address) => Answer::from(user_access::user_access(
                s,
                &self.slots,
                &self.words,
                &mut self.records,
                &mut self.cache,
                &mut self.memory,
                &mut [],
                Pending::none(),
                process,
                a,
                Effective(address),
            )),
        }
    }
}

fn main(rt: HostRuntime) -> io::Result<()> {
    let mut board = Board::fresh();
    println!(rt; "call answer value hit")?;
    for number in 1..=CALLS {
        println!(rt; "{number} {}", board.answer(call(number)))?;
    }
    Ok(())
}
