// 01, "The board": the frame words, and the page map that they make.
#![tactic(auto)]

ghost use Rattle.std.specs.Prelude.{◌≡◌, true, ◌+◌, ◌/◌, ◌≤◌, ◌<◌, ◌^◌, length};
ghost use Rattle.address.specs.Addresses.{name_of};
ghost use Rattle.board.specs.Shapes.{max_frames};
ghost use Rattle.pages.specs.Scans.{NoneOf};
ghost use Rattle.pages.specs.Pages.{frame_word, word_writes, lowest_frame, mapped_to, free_frame, direct_home, home_of};

use address::{Global, PAGE_END, ordinary_page};
use board::{Home, Shape};

// The word of a frame that a page is mapped to.
pub fn frame_word(page: u64, write: bool) -> u64
    requires { page < 2 ^ 32 }
    ensures { result ≡ frame_word page write }
{
    page * 4 + 2 * u64::from(write) + 1
}

// A frame word's write bit.
pub fn word_writes(word: u64) -> bool
    ensures { result ≡ word_writes word }
{
    word / 2 % 2 == 1
}

// The word is none of the page's four, by 32 of its bits: so the compiler can compare several words at once. A word of no form
// may seem to be one.
fn not_of(word: u64, page: u64) -> bool
    ensures { result ≡ true → word / 4 ≡ page → ⊥ }
{
    (word / 4 % PAGE_END) as u32 != (page % PAGE_END) as u32
}

// None of the four words from `f` up is one of the page's.
fn none_of_four(words: &[u64], f: usize, page: u64) -> bool
    requires { f + 4 ≤ length words.now }
    ensures { result ≡ true → NoneOf words.now page f 4 }
{
    let a = not_of(words[f], page);
    let b = not_of(words[f + 1], page);
    let c = not_of(words[f + 2], page);
    let d = not_of(words[f + 3], page);
    a & (b & (c & d))
}

// There are eight words from `f` up, and none of them is one of the page's.
fn clear_of(words: &[u64], f: usize, page: u64) -> bool
    requires { f ≤ length words.now }
    ensures { result ≡ true → (f + 8 ≤ length words.now) × NoneOf words.now page f 8 }
{
    if words.len() - f < 8 {
        return false;
    }
    let low = none_of_four(words, f, page);
    let high = none_of_four(words, f + 4, page);
    low & high
}

// The lowest frame from `u` up whose word names the page: others are passed eight at a time, then one by one.
fn lowest_frame(words: &[u64], u: usize, page: u64) -> Option<usize>
    requires { page < 2 ^ 32 }
    ensures { result ≡ lowest_frame words.now u page }
{
    if words.len() < u {
        return None;
    }
    let mut f = u;
    // (no `for`: the other search begins where this one ends)
    while clear_of(words, f, page) {
        f += 8;
    }
    for g in f..words.len() {
        let w = words[g];
        if w == page * 4 + 1 || w == page * 4 + 3 {
            return Some(g);
        }
    }
    None
}

// The frame that a page is mapped to, whatever the number of words.
pub fn mapped_to(s: Shape, words: &[u64], page: u64) -> Option<usize>
    ensures { result ≡ mapped_to s words.now page }
{
    if ordinary_page(page) {
        return lowest_frame(words, s.uncached, page);
    }
    None
}

// The page map: the frame words of a board, as many as its frames.
#[derive(Clone, Copy)]
pub struct PageMap<'a> {
    pub shape: Shape,
    pub words: &'a [u64],
    pub ghost words_are: { length words.now ≡ shape.frames },
    pub ghost frames_max: { shape.frames ≤ max_frames },
}

impl<'a> PageMap<'a> {
    // The frame that a page is mapped to.
    pub fn mapped_to(&self, page: u64) -> Option<usize>
        ensures { result ≡ mapped_to self.now.shape self.now.words.now page }
    {
        mapped_to(self.shape, self.words, page)
    }

    // A frame from U up whose word is 0.
    fn free_frame(&self, frame: usize) -> bool
        ensures { result ≡ free_frame self.now.shape self.now.words.now frame }
    {
        let s = self.shape;
        s.uncached <= frame && frame < s.frames && self.words[frame] == 0
    }

    // The physical line of an address under prefix 1.
    fn direct_home(&self, g: Global) -> Option<Home>
        ensures { result ≡ direct_home self.now.shape self.now.words.now (name_of g) }
    {
        if g.prefix() == 1 {
            let p = g.physical();
            if self.free_frame(p.frame()) {
                return Some(Home {
                    line: p.line(),
                    write: true,
                });
            }
        }
        None
    }

    // The physical line that an address maps to.
    pub fn home_of(&self, g: Global) -> Option<Home>
        ensures { result ≡ home_of self.now.shape self.now.words.now (name_of g) }
    {
        match self.mapped_to(g.page()) {
            Some(f) => Some(Home {
                line: g.in_frame(f).line(),
                write: word_writes(self.words[f]),
            }),
            None => self.direct_home(g),
        }
    }
}
