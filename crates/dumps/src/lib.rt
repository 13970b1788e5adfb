// The checker of a dumped board (CR 13): the first broken rule, and the lowest frame or place in it. Its scratch may hold anything.
#![tactic(auto)]

ghost use Rattle.std.specs.Prelude.{◌≡◌, false, Some, ◌*◌, ◌≤◌, length};
ghost use Rattle.board.specs.Shapes.{max_frames, max_lines};
ghost use Rattle.board.specs.declared.Pending.{Pending};
ghost use Rattle.stores.specs.Premises.{Sized};
ghost use Rattle.stores.specs.Stores.{store as store_of};
ghost use Rattle.dump_lines.specs.Dumped.{homes_in, store_in};
ghost use Rattle.dumps.specs.Checks.{report, too_short, from_rule2, from_rule3, from_rule4, room_for};
ghost use Rattle.dumps.specs.Results.{number_of, report_of, check_report, repair_report};
ghost use Rattle.dumps.specs.Clauses.{Check};
ghost use Rattle.machine.specs.Boards.{board};
ghost use Rattle.stores.specs.Lent.{lent};

use board::Shape;
use dump_lines::Dump;
use std::error::Error;
use std::fmt;

// The rules, by their numbers.
#[derive(Clone, Copy, Debug, PartialEq, Eq)]
pub enum Rule {
    Lengths = 1,
    PageOnce = 2,
    LineOnce = 3,
    AtHome = 4,
    EqualsMemory = 5,
}

impl Rule {
    pub fn number(self) -> u32
        ensures { result ≡ number_of self }
    {
        self as u32
    }
}

// In plain words, as CR 13 has them: what is broken.
impl fmt::Display for Rule {
    fn fmt<W: fmt::Write>(&self, f: &mut fmt::Formatter<W>) -> fmt::Result {
        f.write_str(match self {
            Rule::Lengths => "the buffers' lengths or F, U, P, L disagree or are out of limits",
            Rule::PageOnce => "a page has two frames",
            Rule::LineOnce => "a physical line is held twice",
            Rule::AtHome => "a held line is not at home",
            Rule::EqualsMemory => "an unchanged held line differs from memory",
        })
    }
}

// The first broken rule, and the lowest frame or place in it; 0 for lengths.
#[derive(Clone, Copy, Debug, PartialEq, Eq)]
pub struct Broken {
    pub rule: Rule,
    pub place: usize,
}

impl Broken {
    // A rule that is broken, and where.
    pub fn new(rule: Rule, place: usize) -> Broken
        ensures { report_of (Some result) ≡ report (number_of rule) place }
    {
        Broken { rule, place }
    }
}

// What a repair says: what was broken before, and how many lines it dropped.
#[derive(Clone, Copy, Debug, PartialEq, Eq)]
pub struct Mended {
    pub broken: Option<Broken>,
    pub dropped: usize,
}

// The call is refused: the scratch is too short, or the flags of a repair are not as many as the lines.
#[derive(Clone, Copy, Debug, PartialEq, Eq)]
pub struct ScratchTooShort;

impl fmt::Display for ScratchTooShort {
    fn fmt<W: fmt::Write>(&self, f: &mut fmt::Formatter<W>) -> fmt::Result {
        f.write_str("the scratch is too short, or the flags are not as many as the lines")
    }
}

impl Error for ScratchTooShort {}

// What a check or a repair gives, as it crosses to C. The number is the call's own: 1 where it is refused, and then the rest is 0.
// Else the first broken rule, 0 if there is none; the lowest frame or place in it; and how many lines a repair dropped.
#[derive(Clone, Copy)]
pub struct Report {
    pub number: u32,
    pub rule: u32,
    pub place: usize,
    pub dropped: usize,
}

// What a check found.
impl From<Option<Broken>> for Report {
    ghost from_gives = { λ found r. r ≡ report_of found };

    fn from(found: Option<Broken>) -> Report {
        match found {
            Some(b) => Report {
                number: 0,
                rule: b.rule.number(),
                place: b.place,
                dropped: 0,
            },
            None => Report {
                number: 0,
                rule: 0,
                place: 0,
                dropped: 0,
            },
        }
    }
}

impl From<ScratchTooShort> for Report {
    ghost from_gives = { λ _ r. r ≡ too_short };

    fn from(_: ScratchTooShort) -> Report {
        Report {
            number: 1,
            rule: 0,
            place: 0,
            dropped: 0,
        }
    }
}

// The report of a check.
impl From<Result<Option<Broken>, ScratchTooShort>> for Report {
    ghost from_gives = { λ c r. r ≡ check_report c };

    fn from(c: Result<Option<Broken>, ScratchTooShort>) -> Report {
        match c {
            Ok(found) => Report::from(found),
            Err(why) => Report::from(why),
        }
    }
}

// The report of a repair.
impl From<Result<Mended, ScratchTooShort>> for Report {
    ghost from_gives = { λ c r. r ≡ repair_report c };

    fn from(c: Result<Mended, ScratchTooShort>) -> Report {
        match c {
            Ok(m) => Report {
                dropped: m.dropped,
                ..Report::from(m.broken)
            },
            Err(why) => Report::from(why),
        }
    }
}

// The scratch has a key for each frame and each place, and two links for each key.
// Keys and links stay two slices, as C lends them: each rule cuts the keys to its own length, so a struct of both would be made anew at
// each call.
pub fn has_room(s: Shape, keys: usize, links: usize) -> bool
    requires { (s.frames ≤ max_frames) × (s.lines ≤ max_lines) }
    ensures { result ≡ room_for s keys links }
{
    (s.frames <= keys) & ((2 * s.frames <= links) & ((s.lines <= keys) & (2 * s.lines <= links)))
}

// Rules 4 and 5: each held line is at home, and equals memory if it is unchanged.
fn check_alone(dump: &Dump) -> Option<Broken>
    ensures { report_of result ≡ from_rule4 dump.now.shape (homes_in dump.now) (store_in dump.now) }
{
    match dump.lowest_astray() {
        Some(place) => Some(Broken::new(Rule::AtHome, place)),
        None => match dump.lowest_stale() {
            Some(place) => Some(Broken::new(Rule::EqualsMemory, place)),
            None => None,
        },
    }
}

// Rule 3, then 4 and 5: no physical line is held twice.
pub fn check_lines(dump: &Dump, keys: &mut [u64], links: &mut [u64]) -> Option<Broken>
    requires { (dump.now.shape.lines ≤ length keys.old) × (2 * dump.now.shape.lines ≤ length links.old) }
    ensures { report_of result ≡ from_rule3 dump.now.shape (homes_in dump.now) (store_in dump.now) }
{
    let lines = dump.shape.lines;
    match dump.doubled_line(&mut keys[0..lines], links) {
        Some(place) => Some(Broken::new(Rule::LineOnce, place)),
        None => check_alone(dump),
    }
}

// Rule 2, then 3 to 5: no page has two frames from U up.
fn check_pages(
    s: Shape,
    words: &[u64],
    records: &[u64],
    cache: &[u8],
    memory: &[u8],
    keys: &mut [u64],
    links: &mut [u64],
) -> Option<Broken>
    requires { Sized s records.now cache.now memory.now × (length words.now ≡ s.frames) × (s.frames ≤ length keys.old) × (2 * s.frames ≤ length links.old) × (s.lines ≤ length keys.old) × (2 * s.lines ≤ length links.old) }
    ensures { report_of result ≡ from_rule2 s words.now (store_of records.now cache.now memory.now) }
{
    match dump_pages::doubled_page(s, words, &mut keys[0..s.frames], links) {
        Some(place) => Some(Broken::new(Rule::PageOnce, place)),
        None => {
            let dump = Dump {
                shape: s,
                words,
                records,
                cache,
                memory,
            };
            check_lines(&dump, keys, links)
        }
    }
}

// Checks a board of 01's edition. Keys and links may hold anything: a key for each frame and each place, and two links for each key.
// A board whose lengths are wrong needs none.
pub fn check(
    s: Shape,
    slots: &[u32],
    words: &[u64],
    records: &[u64],
    cache: &[u8],
    memory: &[u8],
    keys: &mut [u64],
    links: &mut [u64],
) -> Result<Option<Broken>, ScratchTooShort>
    ensures { (tag : Pending) → Check s (board slots.now words.now records.now cache.now memory.now tag) (lent keys.old keys.new) (lent links.old links.new) (check_report result) }
{
    if s.fit(slots, words, records, cache, memory, &[]).is_err() {
        return Ok(Some(Broken::new(Rule::Lengths, 0)));
    }
    if !has_room(s, keys.len(), links.len()) {
        return Err(ScratchTooShort);
    }
    Ok(check_pages(s, words, records, cache, memory, keys, links))
}
