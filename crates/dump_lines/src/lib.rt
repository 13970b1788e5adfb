// Rules 3 to 5 of a dumped board (CR 13), where no page has two frames: no physical line is held twice, each held line is at home,
// and unchanged ones equal memory.
#![tactic(auto)]

ghost use Rattle.std.specs.Prelude.{◌≡◌, None, ◌+◌, ◌*◌, ◌≤◌, ◌<◌, length};
ghost use Rattle.address.specs.Layout.{line_bytes, page_lines};
ghost use Rattle.board.specs.Searches.{first};
ghost use Rattle.board.specs.Shapes.{max_frames};
ghost use Rattle.line_bytes.specs.Bytes.{line_of};
ghost use Rattle.stores.specs.Premises.{Sized};
ghost use Rattle.doubles.specs.Doubles.{keys_of};
ghost use Rattle.dump_pages.specs.Pages.{doubled_page};
ghost use Rattle.dump_lines.specs.Lines.{same_list, astray, stale, breaks_alone, doubled_line};
ghost use Rattle.dump_lines.specs.Tests.{in_frame, place_key};

use address::{PAGE_NAMES, ordinary_page};
use board::{LINE_BYTES, Shape};
use lines::Line;

// A dumped board whose lengths agree and whose pages stand once: what rules 3 to 5 ask.
#[derive(Clone, Copy)]
pub struct Dump<'a> {
    pub shape: Shape,
    pub words: &'a [u64],
    pub records: &'a [u64],
    pub cache: &'a [u8],
    pub memory: &'a [u8],
    pub ghost sized: { Sized shape records.now cache.now memory.now },
    pub ghost words_are: { length words.now ≡ shape.frames },
    pub ghost pages_once: { doubled_page shape words.now ≡ None },
}

// The line names under a prefix.
const PREFIX_NAMES: u64 = 268435456;

// The line's own frame, from U up, has the word that its name asks for: of an ordinary page that page, with the line's permission, and
// the line as far into it as into the frame; of prefix 1 none, and the line may be written.
fn in_frame(s: Shape, words: &[u64], l: Line) -> bool
    requires { (length words.now ≡ s.frames) × (s.frames ≤ max_frames) × (l.physical < page_lines * s.frames) }
    ensures { result ≡ in_frame s words.now l }
{
    let frame = (l.physical / PAGE_NAMES) as usize;
    let w = words[frame];
    let page = l.name / PAGE_NAMES;
    if frame < s.uncached {
        return false;
    }
    if ordinary_page(page) {
        let same = pages::word_writes(w) == l.write;
        return (w % 2 == 1)
            & ((w / 4 == page) & ((l.name % PAGE_NAMES == l.physical % PAGE_NAMES) & same));
    }
    (w == 0) & ((l.name == PREFIX_NAMES + l.physical) & l.write)
}

// Line `i` of `a` and line `j` of `b` have the same sixteen bytes.
fn same_line(a: &[u8], i: usize, b: &[u8], j: usize) -> bool
    requires { (line_bytes * i + line_bytes ≤ length a.now) × (line_bytes * j + line_bytes ≤ length b.now) }
    ensures { result ≡ same_list (line_of a.now i) (line_of b.now j) }
{
    let x = LINE_BYTES * i;
    let y = LINE_BYTES * j;
    a[x..x + LINE_BYTES] == b[y..y + LINE_BYTES]
}

impl<'a> Dump<'a> {
    ghost use Rattle.dump_lines.specs.Dumped.{homes_in, store_in};

    // Record `i` holds a line that is not at home: rule 4.
    fn is_astray(&self, i: usize) -> bool
        requires { i < self.now.shape.lines }
        ensures { result ≡ astray self.now.shape (homes_in self.now) (store_in self.now) i }
    {
        let l = lines::line_at(self.records, i);
        if lines::holds(self.shape, i, l) {
            return !in_frame(self.shape, self.words, l);
        }
        false
    }

    // Record `i` holds an unchanged line that differs from memory: rule 5.
    fn is_stale(&self, i: usize) -> bool
        requires { i < self.now.shape.lines }
        ensures { result ≡ stale self.now.shape (store_in self.now) i }
    {
        let l = lines::line_at(self.records, i);
        if lines::holds(self.shape, i, l) {
            if l.changed {
                return false;
            }
            return !same_line(self.cache, i, self.memory, l.physical as usize);
        }
        false
    }

    // The lowest place whose line breaks rule 4.
    pub fn lowest_astray(&self) -> Option<usize>
        ensures { result ≡ first (astray self.now.shape (homes_in self.now) (store_in self.now)) 0 self.now.shape.lines }
    {
        for i in 0..self.shape.lines {
            if self.is_astray(i) {
                return Some(i);
            }
        }
        None
    }

    // The lowest place whose line breaks rule 5.
    pub fn lowest_stale(&self) -> Option<usize>
        ensures { result ≡ first (stale self.now.shape (store_in self.now)) 0 self.now.shape.lines }
    {
        for i in 0..self.shape.lines {
            if self.is_stale(i) {
                return Some(i);
            }
        }
        None
    }

    // Record `i` holds a line that breaks a rule alone.
    fn breaks_alone(&self, i: usize) -> bool
        requires { i < self.now.shape.lines }
        ensures { result ≡ breaks_alone self.now.shape (homes_in self.now) (store_in self.now) i }
    {
        let astray = self.is_astray(i);
        let stale = self.is_stale(i);
        astray | stale
    }

    // One more than the physical line that record `i` holds, 0 if it holds none; with `fine`, 0 too for a line that breaks a rule alone.
    fn place_key(&self, fine: bool, i: usize) -> u64
        requires { i < self.now.shape.lines }
        ensures { result ≡ place_key fine self.now.shape (homes_in self.now) (store_in self.now) i }
    {
        let l = lines::line_at(self.records, i);
        if lines::holds(self.shape, i, l) {
            if fine {
                if self.breaks_alone(i) {
                    return 0;
                }
            }
            return l.physical + 1;
        }
        0
    }

    // The key of every place.
    pub fn place_keys(&self, fine: bool, keys: &mut [u64])
        requires { length keys.old ≡ self.now.shape.lines }
        ensures { keys.new ≡ keys_of (place_key fine self.now.shape (homes_in self.now) (store_in self.now)) (length keys.old) }
    {
        for (i, key) in keys.iter_mut().enumerate() {
            *key = self.place_key(fine, i);
        }
    }

    // The lowest place whose physical line a higher place holds too. Keys and links may hold anything.
    pub fn doubled_line(&self, keys: &mut [u64], links: &mut [u64]) -> Option<usize>
        requires { (length keys.old ≡ self.now.shape.lines) × (2 * self.now.shape.lines ≤ length links.old) }
        ensures { result ≡ doubled_line self.now.shape self.now.records.now }
    {
        self.place_keys(false, keys);
        doubles::lowest_double(keys, links)
    }
}
