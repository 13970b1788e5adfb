// Ranges of line names, and the places where lines named in them can stand.
#![tactic(auto)]

ghost use Rattle.std.specs.Prelude.{◌≡◌, ◌+◌, ◌%◌, ◌≤◌, ◌<◌, cond, leb, ltb};
ghost use Rattle.address.specs.Layout.{page_end};
ghost use Rattle.pages.specs.Pages.{direct_page};
ghost use Rattle.board.specs.Shapes.{max_frames};
ghost use Rattle.ranges.specs.Ranges.{in_range, named, page_names};
ghost use Rattle.ranges.specs.Places.{NextRun};
ghost use Rattle.ranges.specs.Premises.{IsPlace};
ghost use Rattle.ranges.specs.declared.Names.TheVariants.{One};

use address::PAGE_NAMES;

// A range of names: `count` of them, from `first` on.
#[derive(Clone, Copy)]
pub struct Range {
    pub first: u64,
    pub count: u64,
}

// Names: those of one range, those of two, or all.
#[derive(Clone, Copy)]
pub enum Names {
    One(Range),
    Two(Range, Range),
    All,
}

// Places in a row, from `start` up to `end`, which is not one of them.
#[derive(Clone, Copy)]
pub struct Run {
    pub start: usize,
    pub end: usize,
}

// The first page under prefix 1.
const FIRST_DIRECT_PAGE: u64 = 1048576;

// The names in a page.
pub fn page_names(page: u64) -> Range
    requires { page < page_end }
    ensures { result ≡ page_names page }
{
    Range {
        first: page * PAGE_NAMES,
        count: PAGE_NAMES,
    }
}

// The names that a frame's lines have under prefix 1.
pub fn direct_names(frame: usize) -> Range
    requires { frame < max_frames }
    ensures { result ≡ page_names (direct_page frame) }
{
    page_names(FIRST_DIRECT_PAGE + frame as u64)
}

// The name is one of a range.
fn in_range(r: Range, name: u64) -> bool
    ensures { result ≡ in_range r name }
{
    r.first <= name && name - r.first < r.count
}

// The name is one of these.
pub fn is_named(names: Names, name: u64) -> bool
    ensures { result ≡ named names name }
{
    match names {
        Names::One(r) => in_range(r, name),
        Names::Two(r, q) => in_range(r, name) | in_range(q, name),
        Names::All => true,
    }
}

// How many names to pass, from `first` on, to reach the first whose place is `place`.
fn names_to(sets: usize, first: u64, place: usize) -> usize
    requires { IsPlace sets place }
    ensures { (result < sets) × ((first + result) % sets ≡ place) }
{
    let start = lines::place_of(sets, first);
    if start <= place {
        return place - start;
    }
    place + (sets - start)
}

// How many of `room` places so many names fill: the smaller of the two.
fn taken(room: usize, names: u64) -> usize
    ensures { (result ≡ cond (ltb names room) names room) × (result ≤ room) }
{
    names.min(room as u64) as usize
}

// No places: the run at the end.
fn none(sets: usize) -> Run
    ensures { (result.start ≡ sets) × (result.end ≡ sets) }
{
    Run {
        start: sets,
        end: sets,
    }
}

// The first run of places of a range's names, from `place` on.
fn range_run(sets: usize, r: Range, place: usize) -> Run
    requires { IsPlace sets place }
    ensures { NextRun sets (One r) place result }
{
    if r.count == 0 {
        return none(sets);
    }
    let before = names_to(sets, r.first, place);
    // the range reaches this place
    if (before as u64) < r.count {
        return Run {
            start: place,
            end: place + taken(sets - place, r.count - before as u64),
        };
    }
    // it begins further on
    if place < before {
        let start = place + (sets - before);
        return Run {
            start: start,
            end: start + taken(sets - start, r.count),
        };
    }
    none(sets)
}

// The run that starts first; of equals, `a`.
fn earlier(a: Run, b: Run) -> Run
    ensures { result ≡ cond (leb a.start b.start) a b }
{
    if a.start <= b.start { a } else { b }
}

// The first run of places of these names, from `place` on.
pub fn next_run(sets: usize, names: Names, place: usize) -> Run
    requires { IsPlace sets place }
    ensures { NextRun sets names place result }
{
    match names {
        Names::One(r) => range_run(sets, r, place),
        Names::Two(r, q) => {
            let a = range_run(sets, r, place);
            let b = range_run(sets, q, place);
            earlier(a, b)
        }
        Names::All => Run {
            start: place,
            end: sets,
        },
    }
}
