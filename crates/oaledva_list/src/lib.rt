// A list of user accesses for C and Rust, alone in its piece of the library: beside a second function over the same code the
// compiler would not inline it.
#![tactic(auto)]

ghost use Rattle.board.specs.Shapes.{one_line};
ghost use Rattle.machine.specs.Lists.{answered};
ghost use Rattle.machine.specs.Clauses.{UserAccesses};
ghost use Rattle.crossing.specs.Packing.{unpacked, unpacked_all, tag_of};
ghost use Rattle.machine.specs.Boards.{board};

use board::Shape;

// A list of user accesses: five numbers for each in `accesses`, an answer for each in `answers`.
#[unsafe(no_mangle)]
pub extern "C" fn oaledva_user_accesses(
    frames: usize,
    uncached: usize,
    processes: usize,
    lines: usize,
    slots: &[u32],
    words: &[u64],
    records: &mut [u64],
    cache: &mut [u8],
    memory: &mut [u8],
    set: u32,
    name: u64,
    accesses: &[u32],
    answers: &mut [u64],
) -> u64
    ensures { UserAccesses (one_line frames uncached processes lines) (board slots.now words.now records.old cache.old memory.old (tag_of set name)) accesses.now (unpacked_all answers.old) (unpacked result) (answered (unpacked_all answers.new) (board slots.now words.now records.new cache.new memory.new (tag_of set name))) }
{
    let mut none: [[[u8; 4]; 4]; 0] = [];
    let s = Shape::one_line(frames, uncached, processes, lines);
    let tag = crossing::tag_of(set, name);
    let r = user_lists::user_accesses(
        s, slots, words, records, cache, memory, &mut none, tag, accesses, answers,
    );
    crossing::packed_call(r)
}
