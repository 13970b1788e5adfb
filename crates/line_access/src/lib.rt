// What user and supervisor accesses share: whether the value fits, the alignment, an access to a line, hit or miss, and one
// past the cache.
#![tactic(auto)]

ghost use Rattle.std.specs.Prelude.{◌≡◌, ◌+◌, ◌*◌, ◌/◌, ◌≤◌, ◌<◌, length, Some, Ok};
ghost use Rattle.address.specs.Layout.{line_bytes, page_lines};
ghost use Rattle.board.specs.Answers.{mark_of};
ghost use Rattle.board.specs.Refusals.{access_answer};
ghost use Rattle.board.specs.Shapes.{matrices_of};
ghost use Rattle.line_bytes.specs.Premises.{Width, InWord};
ghost use Rattle.stores.specs.Premises.{Sized};
ghost use Rattle.reach.specs.Reach.{may_write};
ghost use Rattle.machine.specs.Refusals.{too_large, aligned_to};
ghost use Rattle.machine.specs.Accesses.{ended, touched, performed_on, memory_access};
ghost use Rattle.line_access.specs.LineAccess.{refilled, line_access};
ghost use Rattle.stores.specs.Stores.{store};

use address::{Global, LINE_BYTES, Physical};
use board::{Accessed, Mark, Refusal, Shape};
use lines::LineRecords;
use pages::PageMap;
use reach::Way;
use stores::Access;

// A store's value is 256^width or more, of a width that may be.
pub fn overflows(a: Access) -> bool
    requires { Width a.width }
    ensures { result ≡ too_large a }
{
    let end: u64 = 1 << (8 * a.width);
    a.store & (a.value as u64 >= end)
}

// The same of any width. For a bad one the value isn't asked, and of a load never.
pub fn too_large(a: Access) -> bool
    ensures { result ≡ too_large a }
{
    let width = a.width;
    if (width == 1) | ((width == 2) | (width == 4)) {
        return overflows(a);
    }
    false
}

// Which numbers are multiples of which widths, by what they leave mod 4: bit 4 * width + rest. All are of 1, those that leave 0
// or 2 are of 2, those that leave 0 are of 4. One shift costs the same for every width, and needs no branch between them.
const MULTIPLES: u32 = 67056;

// The width is 1, 2 or 4, and the number a multiple of it: that of an effective address, or of a global one.
pub fn aligned(width: u32, at: u64) -> bool
    ensures { result ≡ aligned_to width at }
{
    if width < 8 {
        let bit = 4 * width + (at % 4) as u32;
        return (MULTIPLES >> bit) % 2 == 1;
    }
    false
}

// A load or a store on the line of record `i`, which holds it now. Its mark: was the line held when the access came, and was a
// line written back for it.
fn perform_on(
    records: &mut [u64],
    cache: &mut [u8],
    memory: &[u8],
    i: usize,
    offset: usize,
    a: Access,
    held: bool,
    back: bool,
) -> Accessed
    requires { (2 * i + 2 ≤ length records.old) × (line_bytes * i + line_bytes ≤ length cache.old) × (offset < line_bytes) × InWord offset a.width × Width a.width }
    ensures { ended (access_answer (Ok result)) (store records.new cache.new memory.now) ≡ performed_on i offset a (mark_of held back) (store records.old cache.old memory.now) }
{
    let value = stores::perform(records, cache, i, offset, a);
    Accessed {
        value,
        mark: Mark::by_cache(held, back),
    }
}

// An access to a line that isn't held: it is filled in the victim of its set, and used there.
fn refill_access(
    s: Shape,
    records: &mut [u64],
    cache: &mut [u8],
    memory: &mut [u8],
    uses: &mut [[[u8; 4]; 4]],
    name: u64,
    line: usize,
    write: bool,
    offset: usize,
    a: Access,
) -> Accessed
    requires { Sized s records.old cache.old memory.old × (length uses.old ≡ matrices_of s) × (line < page_lines * s.frames) × (offset < line_bytes) × InWord offset a.width × Width a.width }
    ensures { touched (ended (access_answer (Ok result)) (store records.new cache.new memory.new)) uses.new ≡ refilled s name line write offset a (store records.old cache.old memory.old) uses.old }
{
    let to = LineRecords { shape: s, records }.victim_of(uses, name);
    lines::note_use(s, uses, to);
    let back = stores::insert(s, records, cache, memory, to, name, line, write);
    perform_on(records, cache, memory, to, offset, a, false, back)
}

// Whether users may write the line that is reached in this way.
#[tactic(auto, unfolding(reach::specs::Reach::may_write))]
fn may_write(way: Way) -> bool
    ensures { result ≡ may_write (Some way) }
{
    match way {
        Way::Held(_, write) | Way::InMemory(_, write) => write,
    }
}

// An access to a line, with numbers 8 and 9.
pub fn line_access(
    map: &PageMap,
    records: &mut [u64],
    cache: &mut [u8],
    memory: &mut [u8],
    uses: &mut [[[u8; 4]; 4]],
    g: Global,
    user: bool,
    a: Access,
) -> Result<Accessed, Refusal>
    requires { Sized map.now.shape records.old cache.old memory.old × (length uses.old ≡ matrices_of map.now.shape) × Width a.width × InWord g.0 a.width }
    ensures { touched (ended (access_answer result) (store records.new cache.new memory.new)) uses.new ≡ line_access map.now.shape map.now.words.now g user a (store records.old cache.old memory.old) uses.old }
{
    let s = map.shape;
    let way = reach::way_to(map, records, g).ok_or(Refusal::Unmapped)?;
    if user & (a.store & !may_write(way)) {
        return Err(Refusal::ReadOnlyPage);
    }
    match way {
        Way::Held(i, _) => {
            lines::note_use(s, uses, i);
            let offset = (g.0 % LINE_BYTES) as usize;
            Ok(perform_on(records, cache, memory, i, offset, a, true, false))
        }
        Way::InMemory(line, write) => {
            let name = g.name();
            let offset = (g.0 % LINE_BYTES) as usize;
            Ok(refill_access(
                s, records, cache, memory, uses, name, line, write, offset, a,
            ))
        }
    }
}

// A load or a store in memory, past the cache.
pub fn memory_access(
    records: &[u64],
    cache: &[u8],
    memory: &mut [u8],
    p: Physical,
    a: Access,
) -> Accessed
    requires { (p.0 / 4 * 4 + 4 ≤ length memory.old) × InWord p.0 a.width × Width a.width }
    ensures { ended (access_answer (Ok result)) (store records.now cache.now memory.new) ≡ memory_access p a (store records.now cache.now memory.old) }
{
    let at = p.0 as usize;
    let width = a.width;
    if a.store {
        line_bytes::store_bytes(memory, at, width, a.value);
        return Accessed {
            value: 0,
            mark: Mark::Uncached,
        };
    }
    Accessed {
        value: line_bytes::load_bytes(memory, at, width),
        mark: Mark::Uncached,
    }
}
