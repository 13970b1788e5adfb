// A list of user accesses of the edition with sets of four (CR 4) for C and Rust, alone in its piece of the library: beside a
// second function over the same code the compiler would not inline it.
#![tactic(auto)]

ghost use Rattle.board.specs.Shapes.{four_lines};
ghost use Rattle.machine.specs.Lists.{answered};
ghost use Rattle.machine.specs.Clauses.{UserAccesses};
ghost use Rattle.crossing.specs.Packing.{unpacked, unpacked_all, tag_of};
ghost use Rattle.machine.specs.Boards.{sets_board};

use board::Shape;

// A list of user accesses: five numbers for each in `accesses`, an answer for each in `answers`.
#[unsafe(no_mangle)]
pub extern "C" fn oaledva_sets_user_accesses(
    frames: usize,
    uncached: usize,
    processes: usize,
    lines: usize,
    slots: &[u32],
    words: &[u64],
    records: &mut [u64],
    cache: &mut [u8],
    memory: &mut [u8],
    uses: &mut [[[u8; 4]; 4]],
    set: u32,
    name: u64,
    accesses: &[u32],
    answers: &mut [u64],
) -> u64
    ensures { UserAccesses (four_lines frames uncached processes lines) (sets_board slots.now words.now records.old cache.old memory.old uses.old (tag_of set name)) accesses.now (unpacked_all answers.old) (unpacked result) (answered (unpacked_all answers.new) (sets_board slots.now words.now records.new cache.new memory.new uses.new (tag_of set name))) }
{
    let s = Shape::four_lines(frames, uncached, processes, lines);
    let tag = crossing::tag_of(set, name);
    let r = user_lists::user_accesses(
        s, slots, words, records, cache, memory, uses, tag, accesses, answers,
    );
    crossing::packed_call(r)
}
