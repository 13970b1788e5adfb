// User access of the edition with sets of four (CR 4) for C and Rust, alone in its piece of the library: beside a second function
// over the same code the compiler would not inline it.
#![tactic(auto)]

ghost use Rattle.address.specs.Addresses.{effective};
ghost use Rattle.board.specs.Shapes.{four_lines};
ghost use Rattle.machine.specs.Clauses.{UserAccess};
ghost use Rattle.crossing.specs.Packing.{unpacked, tag_of, access};
ghost use Rattle.machine.specs.Boards.{sets_board};

use address::Effective;
use board::Shape;

// A user's load or store.
#[unsafe(no_mangle)]
pub extern "C" fn oaledva_sets_user_access(
    frames: usize,
    uncached: usize,
    processes: usize,
    lines: usize,
    slots: &[u32],
    words: &[u64],
    records: &mut [u64],
    cache: &mut [u8],
    memory: &mut [u8],
    uses: &mut [[[u8; 4]; 4]],
    set: u32,
    name: u64,
    process: usize,
    store: u32,
    width: u32,
    address: u32,
    value: u32,
) -> u64
    ensures { UserAccess (four_lines frames uncached processes lines) (sets_board slots.now words.now records.old cache.old memory.old uses.old (tag_of set name)) process (access store width value) (effective address) (unpacked result) (sets_board slots.now words.now records.new cache.new memory.new uses.new (tag_of set name)) }
{
    let s = Shape::four_lines(frames, uncached, processes, lines);
    let tag = crossing::tag_of(set, name);
    let a = crossing::access(store, width, value);
    let r = user_access::user_access(
        s,
        slots,
        words,
        records,
        cache,
        memory,
        uses,
        tag,
        process,
        a,
        Effective(address),
    );
    crossing::packed_access(r)
}
