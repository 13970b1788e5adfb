// A log's reader and writer for C and Rust. A reader is eleven words, an entry six. `oaledva_log_c` exports the four calls.
#![tactic(auto)]

ghost use Rattle.std.specs.Prelude.{◌≡◌, ◌+◌, ◌≤◌, length};
ghost use Rattle.board.specs.Lists.{is_yes};
ghost use Rattle.log_reader.specs.Readers.{state_of};
ghost use Rattle.log_writer.specs.Writing.{written};
ghost use Rattle.oaledva_log.specs.States.{reader_words, is_reason, stands, IsReaderIn, words_of_state, read, log_read, log_reason, log_place, wrote_in, log_write};

use log_entries::{ENTRY_WORDS, Entry};
use log_numbers::{GROUPS_BEFORE, Reason};
use log_reader::Reader;
use log_writer::Refused;

// The words of a reader: bytes taken; groups, and what they are worth; how many numbers of the entry there are; the entry's six
// words; why the log was refused.
const READER_WORDS: usize = 11;

// What a call gives that reads nothing, since its buffers don't fit.
const NO_ENTRIES: u64 = u64::MAX;

// A log is shorter than 2^64 bytes.
const LAST_BYTE: u64 = u64::MAX;

// Where the reason stands in what a call gives that writes.
const REASON_UNIT: u64 = 4294967296;

// Whether a reader may have refused for this: what a log that hasn't ended is refused for, or nothing.
fn is_reason(reason: u64) -> bool
    ensures { result ≡ is_reason reason }
{
    match Reason::try_from(reason) {
        Ok(known) => !matches!(known, Reason::Misfit | Reason::Cut),
        Err(_) => reason == 0,
    }
}

// What a reader may be, but for its reason.
fn may_read(r: Reader) -> bool
    ensures { result ≡ stands r.at r.groups r.sum r.count r.entry.kind }
{
    if GROUPS_BEFORE < r.groups {
        return false;
    }
    let end = log_numbers::weight(r.groups);
    let fields = log_entries::fields_of(r.entry.kind);
    (r.groups <= r.at) & ((r.sum < end) & (r.count <= fields))
}

// A reader by its words, if they are a reader's.
fn reader_in(words: &[u64]) -> Result<Reader, Reason>
    ensures { IsReaderIn words.now result }
{
    if words.len() != READER_WORDS {
        return Err(Reason::Misfit);
    }
    let r = Reader {
        at: words[0],
        groups: words[1],
        sum: words[2],
        count: words[3] as usize,
        entry: Entry {
            kind: words[4],
            fields: [words[5], words[6], words[7], words[8], words[9]],
        },
        reason: words[10],
    };
    if may_read(r) & is_reason(r.reason) {
        Ok(r)
    } else {
        Err(Reason::Misfit)
    }
}

// Puts a reader's words: of its entry those that are there, 0 for the others.
fn put_reader(r: Reader, words: &mut [u64])
    requires { (length words.old ≡ reader_words) × (r.count ≤ 6) }
    ensures { words.new ≡ words_of_state (state_of r) }
{
    let [kind, first, second, third, fourth, fifth] = r.entry.first_words(r.count);
    let eleven = [
        r.at,
        r.groups,
        r.sum,
        r.count as u64,
        kind,
        first,
        second,
        third,
        fourth,
        fifth,
        r.reason,
    ];
    words.copy_from_slice(&eleven);
}

// Reads a piece of a log: whole entries into a list, six words for each.
pub fn oaledva_log_read(state: &mut [u64], piece: &[u8], entries: &mut [u64]) -> u64
    ensures { read result state.new entries.new ≡ log_read state.old piece.now entries.old }
{
    let Ok(r) = reader_in(state) else {
        return NO_ENTRIES;
    };
    if LAST_BYTE - r.at < piece.len() as u64 {
        return NO_ENTRIES;
    }
    if entries.len() % ENTRY_WORDS != 0 {
        return NO_ENTRIES;
    }
    let x = log_reader::read(r, piece, entries);
    put_reader(x.reader, state);
    x.given as u64
}

// Why a log is refused, if it has ended here or not.
pub fn oaledva_log_reason(state: &[u64], ended: u32) -> u64
    ensures { result ≡ log_reason state.now (is_yes ended) }
{
    match reader_in(state) {
        Ok(r) => log_reader::reason_of(r, ended != 0),
        Err(reason) => reason.number(),
    }
}

// And where.
pub fn oaledva_log_place(state: &[u64]) -> u64
    ensures { result ≡ log_place state.now }
{
    match reader_in(state) {
        Ok(r) => log_reader::place_of(r),
        Err(_) => 0,
    }
}

// Writes an entry at the front of a buffer.
pub fn oaledva_log_write(entry: &[u64], bytes: &mut [u8]) -> u64
    ensures { written (wrote_in result) bytes.new ≡ log_write entry.now bytes.old }
{
    if entry.len() != ENTRY_WORDS {
        return Reason::Misfit as u64 * REASON_UNIT;
    }
    match log_writer::write(Entry::of_words(entry), bytes) {
        Ok(amount) => amount as u64,
        Err(Refused::Short) => Reason::Misfit as u64 * REASON_UNIT,
        Err(Refused::Kind) => Reason::Kind as u64 * REASON_UNIT,
        Err(Refused::Field(i)) => Reason::Field as u64 * REASON_UNIT + i as u64,
    }
}
