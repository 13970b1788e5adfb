// What map, unmap, protect, move and flush all do to the lines: what is done, and to the lines of which names. Only the places of
// those names are visited.
#![tactic(auto)]

ghost use Rattle.std.specs.Prelude.{◌≡◌, ◌-◌, ◌≤◌, ◌<◌};
ghost use Rattle.address.specs.Layout.{page_end};
ghost use Rattle.board.specs.Shapes.{max_frames};
ghost use Rattle.lines.specs.Holds.{sets_of, set_at, first_at};
ghost use Rattle.stores.specs.Premises.{Sized};
ghost use Rattle.ranges.specs.Ranges.{page_names};
ghost use Rattle.ranges.specs.Places.{HasPlace, Inside};
ghost use Rattle.ranges.specs.declared.Names.TheVariants.{One, Two};
ghost use Rattle.visits.specs.Visits.{visit, map_visit, unmap_visit, protect_visit, move_visit, flush_visit, treated, visited, sweep, visited_all};
ghost use Rattle.stores.specs.Stores.{store};

use board::Shape;
use ranges::{Names, Range, Run};

// What is done to a line: it is dropped; or written back if it is changed, and dropped; or given a permission.
#[derive(Clone, Copy)]
pub enum Deed {
    Drop,
    Retire,
    Permit(bool),
}

// What is done, and to the lines of which names.
#[derive(Clone, Copy)]
pub struct Visit {
    pub deed: Deed,
    pub names: Names,
}

// A deed, to the lines named in two ranges.
fn of_ranges(deed: Deed, range: Range, other: Range) -> Visit
    ensures { result ≡ visit deed (Two range other) }
{
    Visit {
        deed,
        names: Names::Two(range, other),
    }
}

// Map drops the lines named in the page or in the frame's prefix 1 range.
pub fn of_map(page: u64, frame: usize) -> Visit
    requires { (page < page_end) × (frame < max_frames) }
    ensures { result ≡ map_visit page frame }
{
    let range = ranges::page_names(page);
    let direct = ranges::direct_names(frame);
    of_ranges(Deed::Drop, range, direct)
}

// A deed, to the lines named in a page.
fn of_page(deed: Deed, page: u64) -> Visit
    requires { page < page_end }
    ensures { result ≡ visit deed (One (page_names page)) }
{
    Visit {
        deed,
        names: Names::One(ranges::page_names(page)),
    }
}

// Unmap writes back the page's changed lines and drops all of them.
pub fn of_unmap(page: u64) -> Visit
    requires { page < page_end }
    ensures { result ≡ unmap_visit page }
{
    of_page(Deed::Retire, page)
}

// Protect gives the page's lines the permission.
pub fn of_protect(page: u64, write: bool) -> Visit
    requires { page < page_end }
    ensures { result ≡ protect_visit page write }
{
    of_page(Deed::Permit(write), page)
}

// Move writes back the changed lines of the old page and of the new one, and drops all of them.
pub fn of_move(page: u64, new: u64) -> Visit
    requires { (page < page_end) × (new < page_end) }
    ensures { result ≡ move_visit page new }
{
    let range = ranges::page_names(page);
    let other = ranges::page_names(new);
    of_ranges(Deed::Retire, range, other)
}

// Flush all writes back every changed line and drops all.
pub fn of_flush() -> Visit
    ensures { result ≡ flush_visit }
{
    Visit {
        deed: Deed::Retire,
        names: Names::All,
    }
}

// The lines of a board of the shape, lent: their records and bytes, and memory.
#[derive(Drop)]
struct Lines<'a> {
    shape: Shape,
    records: &'a mut [u64],
    cache: &'a [u8],
    memory: &'a mut [u8],
    ghost sized: { Sized shape records.now cache.now memory.now },
}

impl<'a> Lines<'a> {
    ghost use Rattle.visits.specs.Lent.{store_in, SameLoan};

    // Does the deed to the line of record `i`.
    fn treat(&mut self, i: usize, d: Deed)
        requires { i < self.old.shape.lines }
        ensures same_loan { SameLoan self.old self.new }
        ensures treated { store_in self.new ≡ treated self.old.shape d i (store_in self.old) }
    {
        match d {
            Deed::Drop => {
                lines::drop_line(self.records, i);
            }
            Deed::Retire => {
                // (a name first: of a field that is passed on as `&` only the length stays known)
                let records = &mut *self.records;
                stores::write_back(self.shape, records, self.cache, self.memory, i);
                lines::drop_line(records, i);
            }
            Deed::Permit(write) => {
                lines::permit_line(self.records, i, write);
            }
        }
    }

    // Visits record `i`, whose place is one of the names' (asked so that no other record is visited): only a held line of theirs changes.
    fn visit_line(&mut self, i: usize, v: Visit)
        requires { (i < self.old.shape.lines) × HasPlace (sets_of self.old.shape) v.names (set_at self.old.shape i) }
        ensures same_loan { SameLoan self.old self.new }
        ensures visited { store_in self.new ≡ visited self.old.shape v i (store_in self.old) }
    {
        // (a name first, as in `treat`)
        let records = &mut *self.records;
        let l = lines::line_at(records, i);
        if ranges::is_named(v.names, l.name) && lines::holds(self.shape, i, l) {
            self.treat(i, v.deed);
        }
    }

    // Visits the records of a run of places of the names.
    fn visit_run(&mut self, v: Visit, run: Run)
        requires { (run.start ≤ run.end) × (run.end ≤ sets_of self.old.shape) × Inside (sets_of self.old.shape) v.names run }
        ensures same_loan { SameLoan self.old self.new }
        ensures swept { store_in self.new ≡ sweep (visited self.old.shape v) (first_at self.old.shape (run.end - run.start)) (first_at self.old.shape run.start) (store_in self.old) }
    {
        for i in lines::first_at(self.shape, run.start)..lines::first_at(self.shape, run.end) {
            self.visit_line(i, v);
        }
    }
}

// Visits the places of the names, run by run and by rising record: no other record can hold a line of theirs.
pub fn visit_names(s: Shape, records: &mut [u64], cache: &[u8], memory: &mut [u8], v: Visit)
    requires { Sized s records.old cache.now memory.old }
    ensures { store records.new cache.now memory.new ≡ visited_all s v (store records.old cache.now memory.old) }
{
    let sets = lines::sets_of(s);
    let mut held = Lines {
        shape: s,
        records,
        cache,
        memory,
    };
    let mut place = 0;
    // (no `for`: it goes from run to run, and each begins where the last one ends)
    while place < sets {
        let run = ranges::next_run(sets, v.names, place);
        held.visit_run(v, run);
        place = run.end;
    }
}
