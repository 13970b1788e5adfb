// User access for C and Rust, alone in its piece of the library: beside a second function over the same code the compiler would
// not inline it.
#![tactic(auto)]

ghost use Rattle.address.specs.Addresses.{effective};
ghost use Rattle.board.specs.Shapes.{one_line};
ghost use Rattle.machine.specs.Clauses.{UserAccess};
ghost use Rattle.crossing.specs.Packing.{unpacked, tag_of, access};
ghost use Rattle.machine.specs.Boards.{board};

use address::Effective;
use board::Shape;

// A user's load or store.
#[unsafe(no_mangle)]
pub extern "C" fn oaledva_user_access(
    frames: usize,
    uncached: usize,
    processes: usize,
    lines: usize,
    slots: &[u32],
    words: &[u64],
    records: &mut [u64],
    cache: &mut [u8],
    memory: &mut [u8],
    set: u32,
    name: u64,
    process: usize,
    store: u32,
    width: u32,
    address: u32,
    value: u32,
) -> u64
    ensures { UserAccess (one_line frames uncached processes lines) (board slots.now words.now records.old cache.old memory.old (tag_of set name)) process (access store width value) (effective address) (unpacked result) (board slots.now words.now records.new cache.new memory.new (tag_of set name)) }
{
    let mut none: [[[u8; 4]; 4]; 0] = [];
    let s = Shape::one_line(frames, uncached, processes, lines);
    let tag = crossing::tag_of(set, name);
    let a = crossing::access(store, width, value);
    let r = user_access::user_access(
        s,
        slots,
        words,
        records,
        cache,
        memory,
        &mut none,
        tag,
        process,
        a,
        Effective(address),
    );
    crossing::packed_access(r)
}
