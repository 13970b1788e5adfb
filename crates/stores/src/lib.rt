// The cache and memory as one: a line written back, filled, loaded from and stored to.
#![tactic(auto)]

ghost use Rattle.std.specs.Prelude.{◌≡◌, ◌+◌, ◌*◌, ◌≤◌, ◌<◌, length};
ghost use Rattle.address.specs.Layout.{line_bytes, page_lines};
ghost use Rattle.line_bytes.specs.Premises.{Width, InWord};
ghost use Rattle.stores.specs.Premises.{Sized};
ghost use Rattle.stores.specs.Stores.{must_write_back, written_back, inserted, performed, performed_at, store};

use board::{LINE_BYTES, Shape};
use lines::Line;

// A load or a store: its width in bytes, and the value to store.
#[derive(Clone, Copy)]
pub struct Access {
    pub store: bool,
    pub width: u32,
    pub value: u32,
}

// Writes the line of record `i` back to its own physical line, if it is held and changed, and says whether it did.
pub fn write_back(s: Shape, records: &[u64], cache: &[u8], memory: &mut [u8], i: usize) -> bool
    requires { Sized s records.now cache.now memory.old × (i < s.lines) }
    ensures { (store records.now cache.now memory.new ≡ written_back s i (store records.now cache.now memory.old)) × (result ≡ must_write_back s records.now i) }
{
    let l = lines::line_at(records, i);
    if lines::holds(s, i, l) && l.changed {
        line_bytes::copy_line(memory, l.physical as usize, cache, i);
        return true;
    }
    false
}

// A miss: the old line of record `i` is written back if it has to be, the new one noted and filled. It says whether a line was
// written back.
pub fn insert(
    s: Shape,
    records: &mut [u64],
    cache: &mut [u8],
    memory: &mut [u8],
    i: usize,
    name: u64,
    line: usize,
    write: bool,
) -> bool
    requires { Sized s records.old cache.old memory.old × (i < s.lines) × (line < page_lines * s.frames) }
    ensures { (store records.new cache.new memory.new ≡ inserted s i name line write (store records.old cache.old memory.old)) × (result ≡ must_write_back s records.old i) }
{
    let back = write_back(s, records, cache, memory, i);
    lines::put_line(
        records,
        i,
        Line {
            valid: true,
            name,
            physical: line as u64,
            changed: false,
            write,
        },
    );
    line_bytes::copy_line(cache, i, memory, line);
    back
}

// A load or a store at an offset of the line of record `i`.
pub fn perform(records: &mut [u64], cache: &mut [u8], i: usize, offset: usize, a: Access) -> u32
    requires { (2 * i + 2 ≤ length records.old) × (line_bytes * i + line_bytes ≤ length cache.old) × (offset < line_bytes) × InWord offset a.width × Width a.width }
    ensures { performed result records.new cache.new ≡ performed_at i offset a records.old cache.old }
{
    let at = LINE_BYTES * i + offset;
    if a.store {
        line_bytes::store_bytes(cache, at, a.width, a.value);
        lines::mark_changed(records, i);
        return 0;
    }
    line_bytes::load_bytes(cache, at, a.width)
}
