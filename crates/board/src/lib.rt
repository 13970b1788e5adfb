// 01, "The board": F, U, P and L, their limits and the lengths of the buffers (number 1), and what calls and searches give.
#![tactic(auto)]

ghost use Rattle.std.specs.Prelude.{◌≡◌, false, length, ◌*◌, ◌/◌, ◌≤◌, ◌<◌};
ghost use Rattle.board.specs.Answers.{answer, mark_no_access, mark_of};
ghost use Rattle.board.specs.Refusals.{number_of, number_of_mark, fit, call_answer, access_answer};
ghost use Rattle.board.specs.Shapes.{one_line, four_lines, edition_holds, limits_hold, matrices_of, lengths_agree, fits_shape, max_frames, max_processes, max_lines};

use std::error::Error;
use std::fmt;

// The numbers F, U, P and L of a board, and the lines in a set: 1 in 01's edition, 4 in that of sets of four (CR 4).
#[derive(Clone, Copy)]
pub struct Shape {
    pub frames: usize,
    pub uncached: usize,
    pub processes: usize,
    pub lines: usize,
    pub ways: usize,
}

impl Shape {
    // A board of 01's edition.
    pub fn one_line(frames: usize, uncached: usize, processes: usize, lines: usize) -> Shape
        ensures { result ≡ one_line frames uncached processes lines }
    {
        Shape {
            frames,
            uncached,
            processes,
            lines,
            ways: 1,
        }
    }

    // A board of the edition with sets of four.
    pub fn four_lines(frames: usize, uncached: usize, processes: usize, lines: usize) -> Shape
        ensures { result ≡ four_lines frames uncached processes lines }
    {
        Shape {
            frames,
            uncached,
            processes,
            lines,
            ways: SET_LINES,
        }
    }

    // The buffers of a call fit, or number 1 refuses it.
    pub fn fit(
        self,
        slots: &[u32],
        words: &[u64],
        records: &[u64],
        cache: &[u8],
        memory: &[u8],
        uses: &[[[u8; 4]; 4]],
    ) -> Result<(), Refusal>
        ensures { result ≡ fit (fits_shape self (length slots.now) (length words.now) (length records.now) (length cache.now) (length memory.now) (length uses.now)) }
    {
        if fits(
            self,
            slots.len(),
            words.len(),
            records.len(),
            cache.len(),
            memory.len(),
            uses.len(),
        ) {
            return Ok(());
        }
        Err(Refusal::Unfit)
    }
}

// The pending tag: a line name, if one is set.
#[derive(Clone, Copy)]
pub struct Pending {
    pub set: bool,
    pub name: u64,
}

impl Pending {
    // Nothing pending.
    pub fn none() -> Pending
        ensures { (result.set ≡ false) × (result.name ≡ 0) }
    {
        Pending {
            set: false,
            name: 0,
        }
    }
}

// What a call gives, as it crosses to C and is printed: 01's number, the value, and the mark, which says how an access went.
#[derive(Clone, Copy)]
pub struct Answer {
    pub number: u32,
    pub value: u32,
    pub mark: u32,
}

// The marks of accesses (CR 8): the line was held; it was refilled; it was refilled, and the line that stood there written back; the
// cache wasn't asked. A refused call has none of them, nor has a call that is no access: 0.
#[derive(Clone, Copy, Debug, PartialEq, Eq)]
pub enum Mark {
    Hit = 1,
    Refilled = 2,
    WroteBack = 3,
    Uncached = 4,
}

impl Mark {
    pub fn number(self) -> u32
        ensures { result ≡ number_of_mark self }
    {
        self as u32
    }

    // The mark of an access by the cache: was its line held when it came, and was a line written back in that call.
    pub fn by_cache(held: bool, back: bool) -> Mark
        ensures { number_of_mark result ≡ mark_of held back }
    {
        if held {
            return Mark::Hit;
        }
        if back {
            return Mark::WroteBack;
        }
        Mark::Refilled
    }
}

// Why a call is refused: the table of refusal numbers.
#[derive(Clone, Copy, Debug, PartialEq, Eq)]
pub enum Refusal {
    Unfit = 1,
    OutOfRange = 2,
    TagState = 3,
    Misaligned = 4,
    KernelAddress = 5,
    EmptySlot = 6,
    ReadOnlySegment = 7,
    Unmapped = 8,
    ReadOnlyPage = 9,
    FrameInUse = 10,
    AlreadyMapped = 11,
    Outside = 12,
    WrongLine = 13,
}

impl Refusal {
    pub fn number(self) -> u32
        ensures { result ≡ number_of self }
    {
        self as u32
    }
}

// In plain words, as 01's table has them.
impl fmt::Display for Refusal {
    fn fmt<W: fmt::Write>(&self, f: &mut fmt::Formatter<W>) -> fmt::Result {
        f.write_str(match self {
            Refusal::Unfit => "the buffers' lengths or F, U, P, L disagree or are out of limits",
            Refusal::OutOfRange => "a number is outside its range",
            Refusal::TagState => "a tag is pending, or none is where one has to be",
            Refusal::Misaligned => "the width is not 1, 2 or 4, or the address no multiple of it",
            Refusal::KernelAddress => "the address is the kernel's",
            Refusal::EmptySlot => "the slot is empty",
            Refusal::ReadOnlySegment => "the segment is attached read-only",
            Refusal::Unmapped => "the page is not mapped",
            Refusal::ReadOnlyPage => "the page is read-only",
            Refusal::FrameInUse => "the frame is in use",
            Refusal::AlreadyMapped => "the page is mapped already",
            Refusal::Outside => "the address is past memory, or not reached in this way",
            Refusal::WrongLine => "the tag is not mapped to this physical line",
        })
    }
}

impl Error for Refusal {}

// What an access gives that is done: its value and its mark.
#[derive(Clone, Copy)]
pub struct Accessed {
    pub value: u32,
    pub mark: Mark,
}

// Number, value and mark, as the programs' tables have them.
impl fmt::Display for Answer {
    fn fmt<W: fmt::Write>(&self, f: &mut fmt::Formatter<W>) -> fmt::Result {
        write!(f, "{} {} {}", self.number, self.value, self.mark)
    }
}

// The answer of a call that gives no value: number 0, or a refusal's.
impl From<Result<(), Refusal>> for Answer {
    ghost from_gives = { λ r a. a ≡ call_answer r };

    fn from(r: Result<(), Refusal>) -> Answer {
        match r {
            Ok(()) => numbered(0),
            Err(why) => numbered(why.number()),
        }
    }
}

// The answer of an access.
impl From<Result<Accessed, Refusal>> for Answer {
    ghost from_gives = { λ r a. a ≡ access_answer r };

    fn from(r: Result<Accessed, Refusal>) -> Answer {
        match r {
            Ok(a) => Answer {
                number: 0,
                value: a.value,
                mark: a.mark.number(),
            },
            Err(why) => numbered(why.number()),
        }
    }
}

// An answer that is a number alone: value 0, and no mark.
fn numbered(number: u32) -> Answer
    ensures { result ≡ answer number 0 mark_no_access }
{
    Answer {
        number: number,
        value: 0,
        mark: NO_MARK,
    }
}

const NO_MARK: u32 = 0;

// The physical line of a line name, and whether users may write it.
#[derive(Clone, Copy)]
pub struct Home {
    pub line: usize,
    pub write: bool,
}

// The most frames (01), processes and lines (CR 7).
pub const MAX_FRAMES: usize = 1048576;

pub const MAX_PROCESSES: usize = 64;

pub const MAX_LINES: usize = 65536;

// The lines in a set of four.
pub const SET_LINES: usize = 4;

pub const PROCESS_SLOTS: usize = 512;

pub const RECORD_WORDS: usize = 2;

// A line's and a frame's bytes, and a frame's lines, as places in a buffer.
pub const LINE_BYTES: usize = address::LINE_BYTES as usize;

pub const PAGE_BYTES: usize = address::PAGE_BYTES as usize;

pub const PAGE_LINES: usize = address::PAGE_NAMES as usize;

// A set has one line; or four, and then there are four lines at least.
fn edition_holds(s: Shape) -> bool
    ensures { result ≡ edition_holds s }
{
    if s.ways == SET_LINES {
        return SET_LINES <= s.lines;
    }
    s.ways == 1
}

// The numbers are within their limits.
fn limits_hold(s: Shape) -> bool
    ensures { result ≡ limits_hold s }
{
    let ones = usize::count_ones(s.lines);
    let edition = edition_holds(s);
    (1 <= s.frames)
        & ((s.frames <= MAX_FRAMES)
            & ((s.uncached <= s.frames)
                & ((1 <= s.processes)
                    & ((s.processes <= MAX_PROCESSES)
                        & ((s.lines <= MAX_LINES) & ((ones == 1) & edition))))))
}

// How many matrices of uses there are: one for each set of four.
fn matrices(s: Shape) -> usize
    ensures { result ≡ matrices_of s }
{
    if s.ways == SET_LINES {
        return s.lines / SET_LINES;
    }
    0
}

// The buffers have the lengths that the numbers say.
fn lengths_agree(
    s: Shape,
    slots: usize,
    words: usize,
    records: usize,
    cache: usize,
    memory: usize,
    uses: usize,
) -> bool
    requires { (s.frames ≤ max_frames) × (s.processes ≤ max_processes) × (s.lines ≤ max_lines) }
    ensures { result ≡ lengths_agree s slots words records cache memory uses }
{
    let matrices = matrices(s);
    (slots == s.processes * PROCESS_SLOTS)
        & ((words == s.frames)
            & ((records == RECORD_WORDS * s.lines)
                & ((cache == LINE_BYTES * s.lines)
                    & ((memory == PAGE_BYTES * s.frames) & (uses == matrices)))))
}

// Number 1 does not apply.
pub fn fits(
    s: Shape,
    slots: usize,
    words: usize,
    records: usize,
    cache: usize,
    memory: usize,
    uses: usize,
) -> bool
    ensures { result ≡ fits_shape s slots words records cache memory uses }
{
    if limits_hold(s) {
        return lengths_agree(s, slots, words, records, cache, memory, uses);
    }
    false
}
