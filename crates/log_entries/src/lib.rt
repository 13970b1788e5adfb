// The entries of a log: kinds, their fields, what a field may be at most; an entry number by number (CR 1; CR 9: move).
#![tactic(auto)]

ghost use Rattle.std.specs.Prelude.{◌≡◌, suc, ◌-◌, ◌^◌, ◌≤◌, ◌<◌, cond, eqb, ltb, [], ◌∷◌, get_or, length, map, set, take};
ghost use Rattle.log_entries.specs.Entries.{none, fields_of, fields_by_kind, most, number_in, entry_words, entry_from, five_of, words_of, six_of};
ghost use Rattle.log_entries.specs.Enters.{number_of, rule_of, code_of, IsKindOf, entered_of, EnteredFits};

use log_numbers::Reason;

// The kinds of entries by their numbers. The header counts as one, whose number isn't written.
#[derive(Clone, Copy, Debug, PartialEq, Eq)]
pub enum Kind {
    Header = 0,
    UserAccess = 1,
    SupervisorAccess = 2,
    Attach = 3,
    Detach = 4,
    Map = 5,
    Unmap = 6,
    Protect = 7,
    FlushAll = 8,
    Tag = 9,
    LoadAndMap = 10,
    DropTag = 11,
    Move = 12,
}

// What a field may be: any number; 0 or 1; below 2^32; likewise for a store and 0 for a load, where the first field says which; the
// same where the second field does.
#[derive(Clone, Copy, Debug, PartialEq, Eq)]
pub enum Field {
    Any,
    Flag,
    Word,
    ByFirst,
    BySecond,
}

// No kind has more fields.
pub const MOST_FIELDS: usize = 5;

// The words of an entry: its kind and five fields, of which those that the kind doesn't have are 0.
pub const ENTRY_WORDS: usize = 6;

// The most that a number below 2^32 is.
pub const WORD_MOST: u64 = 4294967295;

impl Kind {
    // Its number.
    pub fn number(self) -> u64
        ensures { result ≡ number_of self }
    {
        self as u64
    }

    // Its fields.
    #[tactic(auto, unfolding(crate::specs::Entries::fields_of))]
    pub fn fields(self) -> &'static [Field]
        ensures { map rule_of result.now ≡ fields_of (number_of self) }
    {
        match self {
            // F, U, P, L
            Kind::Header => &[Field::Any, Field::Any, Field::Any, Field::Any],
            // process, load or store, width, effective address, value
            Kind::UserAccess => &[
                Field::Any,
                Field::Flag,
                Field::Word,
                Field::Word,
                Field::BySecond,
            ],
            // load or store, width, global address, value
            Kind::SupervisorAccess => &[Field::Flag, Field::Word, Field::Any, Field::ByFirst],
            // process, slot, segment, write bit
            Kind::Attach => &[Field::Any, Field::Any, Field::Any, Field::Flag],
            // process, slot
            Kind::Detach => &[Field::Any, Field::Any],
            // page, frame, write bit
            Kind::Map => &[Field::Any, Field::Any, Field::Flag],
            // page
            Kind::Unmap => &[Field::Any],
            // page, write bit
            Kind::Protect => &[Field::Any, Field::Flag],
            Kind::FlushAll => &[],
            // line name
            Kind::Tag => &[Field::Any],
            // physical line
            Kind::LoadAndMap => &[Field::Any],
            Kind::DropTag => &[],
            // page, new page
            Kind::Move => &[Field::Any, Field::Any],
        }
    }
}

impl TryFrom<u64> for Kind {
    type Error = Reason;

    ghost try_from_gives = { IsKindOf };

    fn try_from(n: u64) -> Result<Self, Reason> {
        match n {
            0 => Ok(Kind::Header),
            1 => Ok(Kind::UserAccess),
            2 => Ok(Kind::SupervisorAccess),
            3 => Ok(Kind::Attach),
            4 => Ok(Kind::Detach),
            5 => Ok(Kind::Map),
            6 => Ok(Kind::Unmap),
            7 => Ok(Kind::Protect),
            8 => Ok(Kind::FlushAll),
            9 => Ok(Kind::Tag),
            10 => Ok(Kind::LoadAndMap),
            11 => Ok(Kind::DropTag),
            12 => Ok(Kind::Move),
            _ => Err(Reason::Kind),
        }
    }
}

// An entry by its words. Its kind is any number: `write` and C's readers are brought entries of kinds that aren't known.
#[derive(Clone, Copy, Debug, PartialEq, Eq)]
pub struct Entry {
    pub kind: u64,
    pub fields: [u64; MOST_FIELDS],
}

// A word of an entry, if so many of its words are there.
fn shown(count: usize, i: usize, word: u64) -> u64
    ensures { result ≡ cond (ltb i count) word 0 }
{
    if i < count { word } else { 0 }
}

impl Entry {
    // The entry that has these six words.
    pub fn of_words(words: &[u64]) -> Self
        requires { length words.now ≡ entry_words }
        ensures { result ≡ entry_from words.now 0 }
    {
        Entry {
            kind: words[0],
            fields: [words[1], words[2], words[3], words[4], words[5]],
        }
    }

    // Its first `count` words, and 0 for the others.
    pub fn first_words(self, count: usize) -> [u64; ENTRY_WORDS]
        requires { count ≤ entry_words }
        ensures { result ≡ six_of (take count (words_of self)) }
    {
        let [first, second, third, fourth, fifth] = self.fields;
        [
            shown(count, 0, self.kind),
            shown(count, 1, first),
            shown(count, 2, second),
            shown(count, 3, third),
            shown(count, 4, fourth),
            shown(count, 5, fifth),
        ]
    }
}

// What a number makes of an entry: it grows, or it is whole.
#[derive(Clone, Copy, Debug, PartialEq, Eq)]
pub enum Entered {
    Growing(Entry),
    Whole(Entry),
}

// An entry that has its kind alone.
pub fn of_kind(kind: u64) -> Entry
    ensures { words_of result ≡ kind ∷ 0 ∷ 0 ∷ 0 ∷ 0 ∷ 0 ∷ [] }
{
    Entry {
        kind,
        fields: [0; MOST_FIELDS],
    }
}

// How many kinds there are.
const KINDS: u64 = 13;

// How many fields each kind has.
const COUNTS: [usize; 13] = [4, 5, 4, 4, 2, 3, 1, 2, 0, 1, 1, 0, 2];

// How many fields a kind has; none if it isn't known. By a table and not by `Kind::fields`, whose slices the reader would look up for
// each number: its speed rests on it.
pub fn fields_of(kind: u64) -> usize
    ensures { result ≡ length (fields_of kind) }
{
    if kind < KINDS {
        return COUNTS[kind as usize];
    }
    0
}

// The most that an access's value may be.
pub fn most_value(store: u64) -> u64
    ensures { result ≡ cond (eqb store 0) 0 (2 ^ 32 - 1) }
{
    if store == 0 { 0 } else { WORD_MOST }
}

// What a field may be, as a number of the table below: `Field`'s, and none.
const NO: u8 = 0;

const ANY: u8 = 1;

const FLAG: u8 = 2;

const WORD: u8 = 3;

const BY_FIRST: u8 = 4;

const BY_SECOND: u8 = 5;

// The five fields of each kind, by rising kind: what `Kind::fields` says, where the reader finds it in one step.
const FIELDS: [u8; 65] = [
    // the header: F, U, P, L
    ANY, ANY, ANY, ANY, NO,
    // user access: process, load or store, width, effective address, value
    ANY, FLAG, WORD, WORD, BY_SECOND,
    // supervisor access: load or store, width, global address, value
    FLAG, WORD, ANY, BY_FIRST, NO,
    // attach: process, slot, segment, write bit
    ANY, ANY, ANY, FLAG, NO,
    // detach: process, slot
    ANY, ANY, NO, NO, NO,
    // map: page, frame, write bit
    ANY, ANY, FLAG, NO, NO,
    // unmap: page
    ANY, NO, NO, NO, NO,
    // protect: page, write bit
    ANY, FLAG, NO, NO, NO,
    // flush all
    NO, NO, NO, NO, NO,
    // tag: line name
    ANY, NO, NO, NO, NO,
    // load-and-map: physical line
    ANY, NO, NO, NO, NO,
    // drop tag
    NO, NO, NO, NO, NO,
    // move: page, new page
    ANY, ANY, NO, NO, NO,
];

// What field number `i` of a kind may be.
fn code_of(kind: u64, i: usize) -> u8
    requires { (kind < length fields_by_kind) × (1 ≤ i) × (i ≤ 5) }
    ensures { result ≡ code_of (get_or (fields_of kind) (i - 1) none) }
{
    FIELDS[MOST_FIELDS * kind as usize + i - 1]
}

// The most that field number `i` of an entry may be, after those before it.
pub fn most_of(e: Entry, i: usize) -> u64
    requires { (e.kind < length fields_by_kind) × (1 ≤ i) × (i ≤ 5) }
    ensures { result ≡ most e.kind (take (i - 1) (five_of e)) }
{
    let code = code_of(e.kind, i);
    if code == ANY {
        return u64::MAX;
    }
    if code == FLAG {
        return 1;
    }
    if code == WORD {
        return WORD_MOST;
    }
    if code == BY_FIRST {
        return most_value(e.fields[0]);
    }
    if code == BY_SECOND {
        return most_value(e.fields[1]);
    }
    0
}

// A number as a kind.
fn enter_kind(n: u64) -> Result<Entered, Reason>
    ensures { (entered_of 0 result ≡ number_in [] n) × EnteredFits 0 result }
{
    match Kind::try_from(n)? {
        Kind::Header => Err(Reason::Kind),
        kind => {
            let e = of_kind(n);
            if fields_of(kind.number()) == 0 {
                return Ok(Entered::Whole(e));
            }
            Ok(Entered::Growing(e))
        }
    }
}

// Fields with `n` as number `i`. Each at a place of its own and not by its index: so the reader keeps them in registers, and its speed
// rests on it.
fn with_field(fields: [u64; MOST_FIELDS], i: usize, n: u64) -> [u64; MOST_FIELDS]
    requires { (1 ≤ i) × (i ≤ 5) }
    ensures { result ≡ set fields (i - 1) n }
{
    let mut x = fields;
    match i {
        1 => x[0] = n,
        2 => x[1] = n,
        3 => x[2] = n,
        4 => x[3] = n,
        _ => x[4] = n,
    }
    x
}

// A number after `count` numbers of an entry. It may be refused: why.
pub fn enter(e: Entry, count: usize, n: u64) -> Result<Entered, Reason>
    requires { count ≤ length (fields_of e.kind) }
    ensures { (entered_of count result ≡ number_in (take count (words_of e)) n) × EnteredFits count result }
{
    if count == 0 {
        return enter_kind(n);
    }
    if most_of(e, count) < n {
        return Err(Reason::Field);
    }
    let x = Entry {
        kind: e.kind,
        fields: with_field(e.fields, count, n),
    };
    if count == fields_of(e.kind) {
        return Ok(Entered::Whole(x));
    }
    Ok(Entered::Growing(x))
}
