// 01, "The board": a line's record, its place, and the record that holds a name or a physical line; the record that a new line
// takes, and the uses of records (CR 4).
#![tactic(auto)]

ghost use Rattle.std.specs.Prelude.{◌≡◌, cond, ◌+◌, ◌*◌, ◌%◌, ◌≤◌, ◌<◌, ◌^◌, length};
ghost use Rattle.std.specs.Int.Count.{ones};
ghost use Rattle.board.specs.Searches.{first as lowest};
ghost use Rattle.board.specs.Shapes.{max_lines, matrices_of, set_lines};
ghost use Rattle.lines.specs.Records.{line_at, put_line, no_line, changed_line, permitted_line};
ghost use Rattle.lines.specs.Holds.{sets_of, place_of, set_at, first_at, holds_line, holds_name, holder_of, keeps_line, keeper_of};
ghost use Rattle.lines.specs.Victims.{is_empty, victim_at, victim_of, room_for, used_in};
ghost use Rattle.lines.specs.Premises.{Lined, has_name, first_or};

use board::{PAGE_LINES, RECORD_WORDS, SET_LINES, Shape};

// A line's record.
#[derive(Clone, Copy)]
pub struct Line {
    pub valid: bool,
    pub name: u64,
    pub physical: u64,
    pub changed: bool,
    pub write: bool,
}

impl Line {
    // No line: not valid, and all fields 0.
    pub fn none() -> Line
        ensures { result ≡ no_line }
    {
        Line {
            valid: false,
            name: 0,
            physical: 0,
            changed: false,
            write: false,
        }
    }
}

// A name's low bits, as many as the number of sets has trailing zeros.
pub fn place_of(sets: usize, name: u64) -> usize
    requires { ones sets ≡ 1 }
    ensures { (result ≡ name % sets) × (result < sets) }
{
    name as usize % (1 << sets.trailing_zeros())
}

// How many sets there are.
pub fn sets_of(s: Shape) -> usize
    requires { Lined s }
    ensures { (result ≡ sets_of s) × (ones result ≡ 1) × (result ≤ s.lines) }
{
    if s.ways == SET_LINES {
        return s.lines / SET_LINES;
    }
    s.lines
}

// The place of record `i`.
fn set_at(s: Shape, i: usize) -> usize
    requires { Lined s }
    ensures { result ≡ set_at s i }
{
    if s.ways == SET_LINES {
        return i / SET_LINES;
    }
    i
}

// The first record of a place, or the end.
pub fn first_at(s: Shape, place: usize) -> usize
    requires { Lined s × (place ≤ sets_of s) }
    ensures { (result ≡ first_at s place) × (result ≤ s.lines) }
{
    if s.ways == SET_LINES {
        return SET_LINES * place;
    }
    place
}

// The place of a line.
fn name_place(s: Shape, name: u64) -> usize
    requires { Lined s }
    ensures { (result ≡ place_of s name) × (result < sets_of s) }
{
    place_of(sets_of(s), name)
}

// Reads record `i`.
pub fn line_at(records: &[u64], i: usize) -> Line
    requires { 2 * i + 2 ≤ length records.now }
    ensures { (result ≡ line_at records.now i) × (result.physical < 2 ^ 61) }
{
    let name = records[RECORD_WORDS * i];
    let word = records[RECORD_WORDS * i + 1];
    Line {
        valid: word % 2 == 1,
        name,
        physical: word / 8,
        changed: word / 4 % 2 == 1,
        write: word / 2 % 2 == 1,
    }
}

// Writes record `i`.
pub fn put_line(records: &mut [u64], i: usize, l: Line)
    requires { (2 * i + 2 ≤ length records.old) × (l.physical < 2 ^ 61) }
    ensures { records.new ≡ put_line records.old i l }
{
    records[RECORD_WORDS * i] = l.name;
    records[RECORD_WORDS * i + 1] = l.physical * 8
        + u64::from(l.changed) * 4
        + u64::from(l.write) * 2
        + u64::from(l.valid);
}

// Record `i`, with these fields, holds a line.
pub fn holds(s: Shape, i: usize, l: Line) -> bool
    requires { Lined s }
    ensures { result ≡ holds_line s i l }
{
    let place = name_place(s, l.name);
    let own = set_at(s, i);
    let end = PAGE_LINES * s.frames;
    l.valid & ((own == place) & (l.physical < end as u64))
}

// Record `i` if it has this name, held or not; else `later`.
fn named_or(records: &[u64], i: usize, name: u64, later: usize) -> usize
    requires { 2 * i + 2 ≤ length records.now }
    ensures { result ≡ cond (has_name records.now name i) i later }
{
    if records[RECORD_WORDS * i] == name {
        return i;
    }
    later
}

// The lowest of a set's four records that has this name, held or not, else the end: without a branch, so that the processor has
// nothing to guess.
fn named_in(records: &[u64], first: usize, name: u64) -> usize
    requires { (first + set_lines ≤ max_lines) × (2 * first + 8 ≤ length records.now) }
    ensures { result ≡ first_or (has_name records.now name) first set_lines }
{
    let d = named_or(records, first + 3, name, first + SET_LINES);
    let c = named_or(records, first + 2, name, d);
    let b = named_or(records, first + 1, name, c);
    named_or(records, first, name, b)
}

// The line records of a board, as many as its lines.
#[derive(Clone, Copy)]
pub struct LineRecords<'a> {
    pub shape: Shape,
    pub records: &'a [u64],
    pub ghost lined: { Lined shape },
    pub ghost records_are: { length records.now ≡ 2 * shape.lines },
}

impl<'a> LineRecords<'a> {
    // Record `i` holds the line of this name.
    fn holds_name(&self, i: usize, name: u64) -> bool
        requires { i < self.now.shape.lines }
        ensures { result ≡ holds_name self.now.shape self.now.records.now name i }
    {
        let l = line_at(self.records, i);
        l.name == name && holds(self.shape, i, l)
    }

    // The lowest of a set's four records that holds the line of this name.
    fn holder_in(&self, first: usize, name: u64) -> Option<usize>
        requires { first + set_lines ≤ self.now.shape.lines }
        ensures { result ≡ lowest (holds_name self.now.shape self.now.records.now name) first set_lines }
    {
        for i in named_in(self.records, first, name)..first + SET_LINES {
            if self.holds_name(i, name) {
                return Some(i);
            }
        }
        None
    }

    // The record that holds the line of this name.
    pub fn holder_of(&self, name: u64) -> Option<usize>
        ensures { result ≡ holder_of self.now.shape self.now.records.now name }
    {
        let s = self.shape;
        let place = name_place(s, name);
        let first = first_at(s, place);
        if s.ways == SET_LINES {
            return self.holder_in(first, name);
        }
        // (with `then_some` the answer waits for all that is compared)
        if self.holds_name(first, name) {
            return Some(first);
        }
        None
    }

    // The lowest of a set's four records that holds nothing.
    fn empty_in(&self, first: usize) -> Option<usize>
        requires { first + set_lines ≤ self.now.shape.lines }
        ensures { result ≡ lowest (is_empty self.now.shape self.now.records.now) first set_lines }
    {
        for i in first..first + SET_LINES {
            if !holds(self.shape, i, line_at(self.records, i)) {
                return Some(i);
            }
        }
        None
    }

    // The record of a set of four that a new line takes: the lowest that holds nothing, else the lowest whose row has the fewest
    // ones.
    fn victim_in(&self, uses: &[[[u8; 4]; 4]], place: usize, first: usize) -> usize
        requires { (self.now.shape.ways ≡ set_lines) × (place < sets_of self.now.shape) × (first ≡ first_at self.now.shape place) × (length uses.now ≡ matrices_of self.now.shape) }
        ensures { result ≡ victim_at self.now.shape uses.now self.now.records.now place }
    {
        match self.empty_in(first) {
            Some(i) => i,
            None => first + sets::fewest_of(uses[place]),
        }
    }

    // The record that a new line of this name takes.
    pub fn victim_of(&self, uses: &[[[u8; 4]; 4]], name: u64) -> usize
        requires { length uses.now ≡ matrices_of self.now.shape }
        ensures { result ≡ victim_of self.now.shape uses.now self.now.records.now name }
    {
        let s = self.shape;
        let place = name_place(s, name);
        let first = first_at(s, place);
        if s.ways == SET_LINES {
            return self.victim_in(uses, place, first);
        }
        first
    }

    // The record that a line of this name is to be inserted in: none if it is held. It looks for the set once, and keeps the two
    // searches in a set of four out of the way of the accesses.
    pub fn room_for(&self, uses: &[[[u8; 4]; 4]], name: u64) -> Option<usize>
        requires { length uses.now ≡ matrices_of self.now.shape }
        ensures { result ≡ room_for self.now.shape uses.now self.now.records.now name }
    {
        let s = self.shape;
        let place = name_place(s, name);
        let first = first_at(s, place);
        if s.ways == SET_LINES {
            return match self.holder_in(first, name) {
                Some(_) => None,
                None => Some(self.victim_in(uses, place, first)),
            };
        }
        if self.holds_name(first, name) {
            return None;
        }
        Some(first)
    }

    // Record `i` holds this physical line.
    fn keeps(&self, i: usize, line: usize) -> bool
        requires { i < self.now.shape.lines }
        ensures { result ≡ keeps_line self.now.shape self.now.records.now line i }
    {
        let l = line_at(self.records, i);
        let h = holds(self.shape, i, l);
        h & (l.physical == line as u64)
    }

    // The lowest record that holds this physical line.
    pub fn keeper_of(&self, line: usize) -> Option<usize>
        ensures { result ≡ keeper_of self.now.shape self.now.records.now line }
    {
        for i in 0..self.shape.lines {
            if self.keeps(i, line) {
                return Some(i);
            }
        }
        None
    }
}

// Notes a use of record `i`.
pub fn note_use(s: Shape, uses: &mut [[[u8; 4]; 4]], i: usize)
    requires { Lined s × (i < s.lines) × (length uses.old ≡ matrices_of s) }
    ensures { uses.new ≡ used_in s uses.old i }
{
    if s.ways == SET_LINES {
        sets::note(uses, i / SET_LINES, i % SET_LINES);
    }
}

// Marks record `i` changed.
pub fn mark_changed(records: &mut [u64], i: usize)
    requires { 2 * i + 2 ≤ length records.old }
    ensures { records.new ≡ put_line records.old i (changed_line (line_at records.old i)) }
{
    let l = line_at(records, i);
    put_line(records, i, Line { changed: true, ..l });
}

// Gives the line of record `i` a permission.
pub fn permit_line(records: &mut [u64], i: usize, write: bool)
    requires { 2 * i + 2 ≤ length records.old }
    ensures { records.new ≡ put_line records.old i (permitted_line (line_at records.old i) write) }
{
    let l = line_at(records, i);
    put_line(records, i, Line { write, ..l });
}

// Drops the line of record `i`.
pub fn drop_line(records: &mut [u64], i: usize)
    requires { 2 * i + 2 ≤ length records.old }
    ensures { records.new ≡ put_line records.old i no_line }
{
    put_line(records, i, Line::none());
}
