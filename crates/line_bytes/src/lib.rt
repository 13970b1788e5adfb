// Bytes: numbers in them, the most significant byte first, lines of sixteen, and frames filled with zeros.
#![tactic(auto)]

ghost use Rattle.std.specs.Prelude.{◌≡◌, ◌+◌, ◌*◌, ◌/◌, ◌≤◌, ◌<◌, length};
ghost use Rattle.address.specs.Layout.{page_bytes, line_bytes};
ghost use Rattle.line_bytes.specs.Bytes.{number, stored, line_of, with_line, zeroed_frame};
ghost use Rattle.line_bytes.specs.Premises.{Width, InWord};

use board::{LINE_BYTES, PAGE_BYTES};

// The number in `width` bytes, the most significant first: by the aligned word that they lie in, so that every width costs the
// same and the compiler needs no branch.
pub fn load_bytes(bytes: &[u8], at: usize, width: u32) -> u32
    requires { (at / 4 * 4 + 4 ≤ length bytes.now) × InWord at width × Width width }
    ensures { result ≡ number bytes.now at width }
{
    let base = at / 4 * 4;
    let word = u32::from_be_bytes([
        bytes[base],
        bytes[base + 1],
        bytes[base + 2],
        bytes[base + 3],
    ]);
    let before = (at % 4) as u32 * 8;
    (word << before) >> (32 - 8 * width)
}

// Puts the bytes of a value below 256^width (number 2 has refused any other), the most significant first.
pub fn store_bytes(bytes: &mut [u8], at: usize, width: u32, value: u32)
    requires { (at + width ≤ length bytes.old) × Width width }
    ensures { bytes.new ≡ stored bytes.old at width value }
{
    if width == 1 {
        bytes[at] = (value % 256) as u8;
    } else if width == 2 {
        bytes[at..at + 2].copy_from_slice(&((value % 65536) as u16).to_be_bytes());
    } else {
        bytes[at..at + 4].copy_from_slice(&value.to_be_bytes());
    }
}

// Copies line `j` of `src` over line `i` of `dst`, by a local so that it is one move of sixteen bytes.
pub fn copy_line(dst: &mut [u8], i: usize, src: &[u8], j: usize)
    requires { (line_bytes * i + line_bytes ≤ length dst.old) × (line_bytes * j + line_bytes ≤ length src.now) }
    ensures { dst.new ≡ with_line dst.old i (line_of src.now j) }
{
    let a = LINE_BYTES * i;
    let b = LINE_BYTES * j;
    let mut line = [0u8; LINE_BYTES];
    line.copy_from_slice(&src[b..b + LINE_BYTES]);
    dst[a..a + LINE_BYTES].copy_from_slice(&line);
}

// Fills a frame with zeros.
pub fn zero_frame(memory: &mut [u8], frame: usize)
    requires { page_bytes * frame + page_bytes ≤ length memory.old }
    ensures { memory.new ≡ zeroed_frame memory.old frame }
{
    let a = PAGE_BYTES * frame;
    memory[a..a + PAGE_BYTES].fill(0);
}
