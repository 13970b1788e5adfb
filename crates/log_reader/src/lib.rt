// Reads a log in pieces, cut anywhere (CR 1). A reader is a few words by value.
#![tactic(auto)]

ghost use Rattle.std.specs.Prelude.{◌≡◌, ◌+◌, ◌*◌, ◌/◌, ◌≤◌, ◌<◌, length, take, drop};
ghost use Rattle.board.specs.Lists.{splice};
ghost use Rattle.log_entries.specs.Entries.{entry_words, fields_of, number_in, words_of, six_of};
ghost use Rattle.log_numbers.specs.Numbers.{number_end};
ghost use Rattle.log_reader.specs.Reading.{fresh, is_between, numbered, byte_in, read_into, reason_of, place_of};
ghost use Rattle.log_reader.specs.Readers.{state_of, Readable, step_of, StepFits, laid, laid_from, laid_left, Turned};

use log_entries::{ENTRY_WORDS, Entered, Entry, Kind};
use log_numbers::{Reason, Taken};
use log_quick::USER_BYTES;

// Where a reader stands: the bytes taken; the groups of the number that is being read, and what they are worth; the entry that is
// being read, and how many of its numbers are there; why the log was refused: a reason's number, or 0.
#[derive(Clone, Copy, Debug, PartialEq, Eq)]
pub struct Reader {
    pub at: u64,
    pub groups: u64,
    pub sum: u64,
    pub count: usize,
    pub entry: Entry,
    pub reason: u64,
}

// A reader after a byte: it goes on, or gives its entry, which is whole, and goes on.
#[derive(Clone, Copy, Debug, PartialEq, Eq)]
pub enum Stepped {
    On(Reader),
    Gives(Reader),
}

// A reader after a piece, and how many entries it gave.
#[derive(Clone, Copy, Debug, PartialEq, Eq)]
pub struct Progress {
    pub reader: Reader,
    pub given: usize,
}

// A reader at the start of a log.
pub fn fresh_reader() -> Reader
    ensures { (state_of result ≡ fresh) × Readable result }
{
    Reader {
        at: 0,
        groups: 0,
        sum: 0,
        count: 1,
        entry: log_entries::of_kind(Kind::Header as u64),
        reason: 0,
    }
}

// The reader after a number, or why that is refused.
fn after_number(r: Reader, n: u64) -> Result<Stepped, Reason>
    requires { Readable r × (r.at + 1 < number_end) }
    ensures { (step_of r result ≡ numbered (state_of r) (number_in (state_of r).numbers n)) × StepFits r result }
{
    let at = r.at + 1;
    match log_entries::enter(r.entry, r.count, n)? {
        Entered::Growing(entry) => Ok(Stepped::On(Reader {
            at,
            groups: 0,
            sum: 0,
            count: r.count + 1,
            entry,
            reason: 0,
        })),
        Entered::Whole(entry) => Ok(Stepped::Gives(Reader {
            at,
            groups: 0,
            sum: 0,
            count: 0,
            entry,
            reason: 0,
        })),
    }
}

// The reader after a byte, or why that is refused.
fn after_byte(r: Reader, b: u8) -> Result<Stepped, Reason>
    requires { Readable r × (r.reason ≡ 0) × (r.at + 1 < number_end) }
    ensures { (step_of r result ≡ byte_in (state_of r) b) × StepFits r result }
{
    match log_numbers::take_byte(r.groups, r.sum, b)? {
        Taken::More(sum) => Ok(Stepped::On(Reader {
            at: r.at + 1,
            groups: r.groups + 1,
            sum,
            ..r
        })),
        Taken::Whole(n) => after_number(r, n),
    }
}

// Between two entries.
fn is_between(r: Reader) -> bool
    ensures { result ≡ is_between (state_of r) }
{
    (r.groups == 0) & (r.count == 0)
}

// Puts an entry's six words at its place in a list. One by one and not by `copy_from_slice`, which first asks where the two slices stand:
// the reader's speed rests on it.
fn put_words(entries: &mut [u64], i: usize, words: &[u64; ENTRY_WORDS])
    requires { entry_words * i + entry_words ≤ length entries.old }
    ensures { entries.new ≡ splice entries.old (entry_words * i) words.now }
{
    let at = ENTRY_WORDS * i;
    let [kind, first, second, third, fourth, fifth] = *words;
    entries[at] = kind;
    entries[at + 1] = first;
    entries[at + 2] = second;
    entries[at + 3] = third;
    entries[at + 4] = fourth;
    entries[at + 5] = fifth;
}

// Puts an entry that is whole at its place in a list.
fn put_entry(e: Entry, entries: &mut [u64], i: usize)
    requires { entry_words * i + entry_words ≤ length entries.old }
    ensures { entries.new ≡ splice entries.old (entry_words * i) (six_of (take (1 + length (fields_of e.kind)) (words_of e))) }
{
    let words = e.first_words(1 + log_entries::fields_of(e.kind));
    put_words(entries, i, &words);
}

// A reader on its way through a piece: what it has taken of it, and how many entries it gave.
#[derive(Clone, Copy, Debug, PartialEq, Eq)]
struct Turn {
    reader: Reader,
    from: usize,
    given: usize,
}

// Takes a byte of a piece.
fn byte_turn(x: Turn, piece: &[u8], entries: &mut [u64]) -> Turn
    requires { Readable x.reader × (x.reader.reason ≡ 0) × (x.reader.at + length piece.now < number_end + x.from) × (x.from < length piece.now) × (x.given < length entries.old / entry_words) }
    ensures { Turned x.reader.at x.from (length piece.now) result.from result.reader (laid_left entries.old x.given (state_of x.reader) (drop x.from piece.now)) (laid_left entries.new result.given (state_of result.reader) (drop result.from piece.now)) }
{
    let from = x.from + 1;
    match after_byte(x.reader, piece[x.from]) {
        Ok(Stepped::On(reader)) => Turn {
            reader,
            from,
            given: x.given,
        },
        Ok(Stepped::Gives(reader)) => {
            put_entry(reader.entry, entries, x.given);
            Turn {
                reader,
                from,
                given: x.given + 1,
            }
        }
        Err(reason) => Turn {
            reader: Reader {
                reason: reason.number(),
                ..x.reader
            },
            from,
            given: x.given,
        },
    }
}

// Takes a whole user access of a piece, if a plain one comes next; else a byte.
fn one_turn(x: Turn, piece: &[u8], entries: &mut [u64]) -> Turn
    requires { Readable x.reader × (x.reader.reason ≡ 0) × (x.reader.at + length piece.now < number_end + x.from) × (x.from < length piece.now) × (x.given < length entries.old / entry_words) }
    ensures { Turned x.reader.at x.from (length piece.now) result.from result.reader (laid_left entries.old x.given (state_of x.reader) (drop x.from piece.now)) (laid_left entries.new result.given (state_of result.reader) (drop result.from piece.now)) }
{
    let r = x.reader;
    let from = x.from;
    if is_between(r) & (USER_BYTES <= piece.len() - from) {
        if let Some(u) = log_quick::user_at(piece, from) {
            let words = [
                Kind::UserAccess as u64,
                u.process,
                u.store,
                u.width,
                u.address,
                u.value,
            ];
            put_words(entries, x.given, &words);
            return Turn {
                reader: Reader {
                    at: r.at + u.count as u64,
                    ..r
                },
                from: from + u.count,
                given: x.given + 1,
            };
        }
    }
    byte_turn(x, piece, entries)
}

// Reads a piece until the list of entries is full, the piece is used up or the log is refused.
pub fn read(r: Reader, piece: &[u8], entries: &mut [u64]) -> Progress
    requires { Readable r × (r.at + length piece.now < number_end) }
    ensures { (laid entries.new result.given (state_of result.reader) ≡ laid_from entries.old 0 (read_into (length entries.old / entry_words) (state_of r) piece.now)) × Readable result.reader }
{
    let room = entries.len() / ENTRY_WORDS;
    let mut x = Turn {
        reader: r,
        from: 0,
        given: 0,
    };
    while (x.from < piece.len()) & (x.given < room) & (x.reader.reason == 0) {
        x = one_turn(x, piece, entries);
    }
    Progress {
        reader: x.reader,
        given: x.given,
    }
}

// Why the log is refused, if it has ended here or not.
pub fn reason_of(r: Reader, ended: bool) -> u64
    ensures { result ≡ reason_of (state_of r) ended }
{
    if r.reason != 0 {
        r.reason
    } else if ended & !is_between(r) {
        Reason::Cut.number()
    } else {
        0
    }
}

// And where.
pub fn place_of(r: Reader) -> u64
    requires { Readable r }
    ensures { result ≡ place_of (state_of r) }
{
    if r.reason == 0 { r.at } else { r.at - r.groups }
}
