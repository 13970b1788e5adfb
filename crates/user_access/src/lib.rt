// 01, "Calls": a user's load or store, by effective address.
#![tactic(auto)]

ghost use Rattle.std.specs.Prelude.{◌≡◌, true, ◌*◌, ◌≤◌, length};
ghost use Rattle.address.specs.Layout.{process_slots};
ghost use Rattle.board.specs.Shapes.{max_processes, fits_shape};
ghost use Rattle.board.specs.Refusals.{access_answer};
ghost use Rattle.machine.specs.Clauses.{UserAccess};
ghost use Rattle.user_access.specs.Checks.{refused_by, slot_check, user_check};
ghost use Rattle.machine.specs.Boards.{sets_board};

use address::{Effective, Global};
use board::{Accessed, PROCESS_SLOTS, Pending, Refusal, Shape};
use pages::PageMap;
use stores::Access;

// Numbers 6 and 7 by the slot's word, or the global address.
fn slot_check(word: u32, a: Access, e: Effective) -> Result<Global, Refusal>
    ensures { result ≡ slot_check word a e }
{
    let segment = u64::from(word / 2);
    if !address::attachable_segment(segment) {
        return Err(Refusal::EmptySlot);
    }
    if a.store & (word % 2 != 1) {
        return Err(Refusal::ReadOnlySegment);
    }
    Ok(e.in_segment(segment))
}

// Why an access is refused to which `why` applies: by 2, which is lower, if the value is too large.
fn refused_by(why: Refusal, a: Access) -> Refusal
    ensures { result ≡ refused_by why a }
{
    if line_access::too_large(a) {
        return Refusal::OutOfRange;
    }
    why
}

// Numbers 2 to 7 of a user access, or the global address. Of an access that may be done, width, alignment and value are asked
// without a branch between the widths.
fn user_check(
    s: Shape,
    slots: &[u32],
    tag: Pending,
    process: usize,
    a: Access,
    e: Effective,
) -> Result<Global, Refusal>
    requires { (length slots.now ≡ s.processes * process_slots) × (s.processes ≤ max_processes) }
    ensures { result ≡ user_check s slots.now tag process a e }
{
    if (process >= s.processes) | tag.set {
        if process >= s.processes {
            return Err(Refusal::OutOfRange);
        }
        return Err(refused_by(Refusal::TagState, a));
    }
    if !line_access::aligned(a.width, u64::from(e.0)) {
        return Err(refused_by(Refusal::Misaligned, a));
    }
    if line_access::overflows(a) {
        return Err(Refusal::OutOfRange);
    }
    if e.is_kernels() {
        return Err(Refusal::KernelAddress);
    }
    slot_check(slots[process * PROCESS_SLOTS + e.slot()], a, e)
}

// A user's load or store on a board that fits.
pub fn fitting_access(
    s: Shape,
    slots: &[u32],
    words: &[u64],
    records: &mut [u64],
    cache: &mut [u8],
    memory: &mut [u8],
    uses: &mut [[[u8; 4]; 4]],
    tag: Pending,
    process: usize,
    a: Access,
    e: Effective,
) -> Result<Accessed, Refusal>
    requires { fits_shape s (length slots.now) (length words.now) (length records.old) (length cache.old) (length memory.old) (length uses.old) ≡ true }
    ensures { UserAccess s (sets_board slots.now words.now records.old cache.old memory.old uses.old tag) process a e (access_answer result) (sets_board slots.now words.now records.new cache.new memory.new uses.new tag) }
{
    let g = user_check(s, slots, tag, process, a, e)?;
    let map = PageMap { shape: s, words };
    line_access::line_access(&map, records, cache, memory, uses, g, true, a)
}

// A user's load or store.
pub fn user_access(
    s: Shape,
    slots: &[u32],
    words: &[u64],
    records: &mut [u64],
    cache: &mut [u8],
    memory: &mut [u8],
    uses: &mut [[[u8; 4]; 4]],
    tag: Pending,
    process: usize,
    a: Access,
    e: Effective,
) -> Result<Accessed, Refusal>
    ensures { UserAccess s (sets_board slots.now words.now records.old cache.old memory.old uses.old tag) process a e (access_answer result) (sets_board slots.now words.now records.new cache.new memory.new uses.new tag) }
{
    s.fit(slots, words, records, cache, memory, uses)?;
    fitting_access(
        s, slots, words, records, cache, memory, uses, tag, process, a, e,
    )
}
