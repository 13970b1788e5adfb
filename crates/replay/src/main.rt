// Replays a log of calls (CR 1), from the file that its argument names or else from standard input. It writes a row for each call to
// standard output, and to standard error why a log is refused.
#![tactic(auto)]

ghost use Rattle.std.specs.Prelude.{◌≤◌, length};
ghost use Rattle.log_reader.specs.Readers.{Readable};
ghost use Rattle.replay.specs.Sizes.{Small};

use address::{Effective, Global};
use board::{Answer, LINE_BYTES, PAGE_BYTES, PROCESS_SLOTS, Pending, RECORD_WORDS, Shape};
use log_entries::{ENTRY_WORDS, Entry, Kind, MOST_FIELDS, WORD_MOST};
use log_numbers::Reason;
use log_reader::Reader;
use std::env::FillError;
use std::fmt::InlineText;
use std::fs::File;
use std::io::Read;
use std::rt::{Env, Files};
use std::{fmt, io};
use stores::Access;

// The largest board that it takes, and the lengths of that board's buffers.
const MOST_FRAMES: usize = 8;

const MOST_LINES: usize = 64;

const MOST_PROCESSES: usize = 16;

const SLOTS: usize = PROCESS_SLOTS * MOST_PROCESSES;

const RECORDS: usize = RECORD_WORDS * MOST_LINES;

const CACHE: usize = LINE_BYTES * MOST_LINES;

const MEMORY: usize = PAGE_BYTES * MOST_FRAMES;

// The log is read in pieces of so many bytes. A piece never has more entries than bytes, so this many words are room for them all.
const PIECE: usize = 4096;

const ENTRIES: usize = ENTRY_WORDS * PIECE;

// No log has more bytes.
const MOST_BYTES: u64 = u64::MAX;

// Widths, values and effective addresses are below this.
const WORD_END: u64 = WORD_MOST + 1;

// Linux's number for a name that is too long: the log's is at most so many bytes.
const NAME_TOO_LONG: i32 = 36;

const NAME: usize = 4096;

// And for bytes that are no text: a file is opened by a name in UTF-8.
const NO_TEXT: i32 = 84;

// Room for an error's text.
const ERROR_TEXT: usize = 256;

// The log so far: where its reader stands, how many entries the last piece gave, and whether there is more to read.
#[derive(Clone, Copy)]
struct Input {
    reader: Reader,
    given: usize,
    more: bool,
}

// The buffers of the largest board, of which a board uses the front parts.
#[derive(Drop)]
struct Buffers {
    slots: [u32; SLOTS],
    words: [u64; MOST_FRAMES],
    records: [u64; RECORDS],
    cache: [u8; CACHE],
    memory: [u8; MEMORY],
}

// The board so far: its numbers, its tag, and how many calls were made on it.
#[derive(Clone, Copy)]
struct Board {
    shape: Shape,
    tag: Pending,
    calls: u64,
    ghost small: { Small shape },
}

// One more reason for which a log is refused.
#[derive(Clone, Copy)]
struct TooLarge;

impl fmt::Display for TooLarge {
    fn fmt<W: fmt::Write>(&self, f: &mut fmt::Formatter<W>) -> fmt::Result {
        f.write_str("a board of more than 8 frames, 64 lines or 16 processes")
    }
}

// A number that the reader lets through only below WORD_END.
fn narrow(x: u64) -> u32 {
    (x % WORD_END) as u32
}

fn access(store: u64, width: u64, value: u64) -> Access {
    Access {
        store: store != 0,
        width: narrow(width),
        value: narrow(value),
    }
}

// A call by its kind and its fields.
fn call(
    s: Shape,
    slots: &mut [u32],
    words: &mut [u64],
    records: &mut [u64],
    cache: &mut [u8],
    memory: &mut [u8],
    tag: &mut Pending,
    kind: Kind,
    fields: [u64; MOST_FIELDS],
) -> Answer {
    let [first, second, third, fourth, fifth] = fields;
    let done = match kind {
        Kind::UserAccess => {
            let a = access(second, third, fifth);
            let address = Effective(narrow(fourth));
            let process = first as usize;
            return Answer::from(user_access::user_access(
                s,
                slots,
                words,
                records,
                cache,
                memory,
                &mut [],
                *tag,
                process,
                a,
                address,
            ));
        }
        Kind::SupervisorAccess => {
            let a = access(first, second, fourth);
            let address = Global(third);
            return Answer::from(supervisor_access::supervisor_access(
                s,
                slots,
                words,
                records,
                cache,
                memory,
                &mut [],
                *tag,
                a,
                address,
            ));
        }
        Kind::Attach => {
            let process = first as usize;
            let slot = second as usize;
            let write = fourth != 0;
            slot_calls::attach(
                s,
                slots,
                words,
                records,
                cache,
                memory,
                &[],
                process,
                slot,
                third,
                write,
            )
        }
        Kind::Detach => {
            let process = first as usize;
            let slot = second as usize;
            slot_calls::detach(s, slots, words, records, cache, memory, &[], process, slot)
        }
        Kind::Map => {
            let frame = second as usize;
            let write = third != 0;
            map_call::map(
                s,
                slots,
                words,
                records,
                cache,
                memory,
                &[],
                first,
                frame,
                write,
            )
        }
        Kind::Unmap => page_calls::unmap(s, slots, words, records, cache, memory, &[], first),
        Kind::Protect => {
            let write = second != 0;
            page_calls::protect(s, slots, words, records, cache, memory, &[], first, write)
        }
        Kind::Move => {
            move_call::move_page(s, slots, words, records, cache, memory, &[], first, second)
        }
        Kind::FlushAll => line_calls::flush_all(s, slots, words, records, cache, memory, &[]),
        Kind::Tag => tag_calls::tag(s, slots, words, records, cache, memory, &[], tag, first),
        Kind::LoadAndMap => {
            let line = first as usize;
            load_call::load_and_map(s, slots, words, records, cache, memory, &mut [], tag, line)
        }
        Kind::DropTag => tag_calls::drop_tag(s, slots, words, records, cache, memory, &[], tag),
        // the header makes the board, and is no call
        Kind::Header => Ok(()),
    };
    Answer::from(done)
}

// A call on the front parts of the buffers, as long as the board's numbers say.
fn call_on_parts(
    s: Shape,
    slots: &mut [u32; SLOTS],
    words: &mut [u64; MOST_FRAMES],
    records: &mut [u64; RECORDS],
    cache: &mut [u8; CACHE],
    memory: &mut [u8; MEMORY],
    tag: &mut Pending,
    kind: Kind,
    fields: [u64; MOST_FIELDS],
) -> Answer
    requires { Small s }
{
    call(
        s,
        &mut slots[..PROCESS_SLOTS * s.processes],
        &mut words[..s.frames],
        &mut records[..RECORD_WORDS * s.lines],
        &mut cache[..LINE_BYTES * s.lines],
        &mut memory[..PAGE_BYTES * s.frames],
        tag,
        kind,
        fields,
    )
}

impl Buffers {
    fn zeros() -> Buffers {
        Buffers {
            slots: [0; SLOTS],
            words: [0; MOST_FRAMES],
            records: [0; RECORDS],
            cache: [0; CACHE],
            memory: [0; MEMORY],
        }
    }
}

impl Board {
    // The board of a header's fields, if it isn't too large.
    fn of_header(fields: [u64; MOST_FIELDS]) -> Result<Board, TooLarge> {
        let [frames, uncached, processes, lines, _] = fields;
        let shape = Shape::one_line(
            frames as usize,
            uncached as usize,
            processes as usize,
            lines as usize,
        );
        if shape.frames <= MOST_FRAMES && shape.lines <= MOST_LINES {
            if shape.processes <= MOST_PROCESSES {
                return Ok(Board {
                    shape,
                    tag: Pending::none(),
                    calls: 0,
                });
            }
        }
        Err(TooLarge)
    }

    // The board after a call, whose row is written. No log has 2^64 calls. What can't be written is passed over: the calls go on, and it
    // is still said whether the log is refused.
    fn after_call(
        self,
        rt: &impl Print,
        buffers: &mut Buffers,
        kind: Kind,
        fields: [u64; MOST_FIELDS],
    ) -> Board {
        let mut tag = self.tag;
        let calls = self.calls.wrapping_add(1);
        let a = call_on_parts(
            self.shape,
            &mut buffers.slots,
            &mut buffers.words,
            &mut buffers.records,
            &mut buffers.cache,
            &mut buffers.memory,
            &mut tag,
            kind,
            fields,
        );
        let _ = println!(rt; "{calls} {a}");
        Board {
            shape: self.shape,
            tag,
            calls,
        }
    }

    // The board after an entry: the header's, or this one after a call. The reader gives no entry of another kind.
    fn after(self, rt: &impl Print, buffers: &mut Buffers, e: Entry) -> Result<Board, TooLarge> {
        match Kind::try_from(e.kind) {
            Ok(Kind::Header) => Board::of_header(e.fields),
            Ok(kind) => Ok(self.after_call(rt, buffers, kind, e.fields)),
            Err(_) => Ok(self),
        }
    }
}

// The board after the entries of a piece.
fn play_entries(
    rt: &impl Print,
    board: Board,
    buffers: &mut Buffers,
    entries: &[u64; ENTRIES],
    given: usize,
) -> Result<Board, TooLarge> {
    let mut after = board;
    for i in 0..given.min(PIECE) {
        let at = ENTRY_WORDS * i;
        let e = Entry::of_words(&entries[at..at + ENTRY_WORDS]);
        after = after.after(rt, buffers, e)?;
    }
    Ok(after)
}

// Reads a piece of the log. An empty one says that the log has ended (and so does one past the last byte that a log can have).
fn read_piece(r: Reader, piece: &[u8], entries: &mut [u64; ENTRIES]) -> Input
    requires { Readable r }
    ensures { Readable result.reader }
{
    if piece.len() as u64 <= MOST_BYTES - r.at {
        let x = log_reader::read(r, piece, entries);
        return Input {
            reader: x.reader,
            given: x.given,
            more: !piece.is_empty() && x.reader.reason == 0,
        };
    }
    Input {
        reader: r,
        given: 0,
        more: false,
    }
}

// An error's text without the system's number for it, which std puts behind.
fn without_number(text: &str) -> &str {
    match text.split_once(" (os error ") {
        Some((words, _)) => words,
        None => text,
    }
}

// Why the input can't be opened or read.
fn say_failed(rt: &impl Eprint, name: &str, error: io::Error) {
    let text = InlineText::<ERROR_TEXT>::of(error);
    let words = without_number(text.as_str());
    let _ = eprintln!(rt; "replay: {name}: {words}");
}

// Reads a piece, and gives its length. An input that can't be read has ended.
fn fill<R: Read>(rt: &impl Eprint, input: &mut R, name: &str, piece: &mut [u8; PIECE]) -> usize
    ensures { result ≤ length piece.new }
{
    match input.read(piece) {
        Ok(n) => n,
        Err(error) => {
            say_failed(rt, name, error);
            0
        }
    }
}

// Reads on.
fn read_on<R: Read>(
    rt: &impl Eprint,
    input: &mut R,
    name: &str,
    r: Reader,
    entries: &mut [u64; ENTRIES],
) -> Input
    requires { Readable r }
    ensures { Readable result.reader }
{
    let mut piece = [0u8; PIECE];
    let n = fill(rt, input, name, &mut piece);
    read_piece(r, &piece[..n], entries)
}

// Where a log is refused, and why.
fn say_refused(rt: &impl Eprint, place: u64, calls: u64, why: impl fmt::Display + Drop) {
    let _ = eprintln!(rt; "replay: log refused at byte {place}, after {calls} calls: {why}");
}

// Says at the end whether the log is refused.
fn judge(rt: &impl Eprint, r: Reader, calls: u64)
    requires { Readable r }
{
    if let Ok(reason) = Reason::try_from(log_reader::reason_of(r, true)) {
        say_refused(rt, log_reader::place_of(r), calls, reason);
    }
}

// Replays a log to its end, or until its board is too large. Nothing says that an input ends, so the turns are counted, to a number that
// no run uses up.
fn replay<R: Read>(rt: &(impl Print + Eprint), input: &mut R, name: &str) -> Result<(), TooLarge> {
    let mut buffers = Buffers::zeros();
    let mut entries: [u64; ENTRIES] = [0; ENTRIES];
    let mut board = Board::of_header([0; MOST_FIELDS])?;
    let mut reader = log_reader::fresh_reader();
    let _ = println!(rt; "call answer value mark");
    for _ in 0..u64::MAX {
        let x = read_on(rt, input, name, reader, &mut entries);
        reader = x.reader;
        board = play_entries(rt, board, &mut buffers, &entries, x.given)?;
        if !x.more {
            break;
        }
    }
    judge(rt, reader, board.calls);
    Ok(())
}

// Replays an input, and says if its board is too large.
fn replay_input<R: Read>(rt: &(impl Print + Eprint), input: &mut R, name: &str) {
    if let Err(why) = replay(rt, input, name) {
        say_refused(rt, 0, 0, why);
    }
}

// Replays a file.
fn replay_file(rt: &(impl Files + Print + Eprint), name: &str) {
    match File::open(rt, name) {
        Ok(mut file) => replay_input(rt, &mut file, name),
        Err(error) => say_failed(rt, name, error),
    }
}

// Replays the file that has this name.
fn replay_named(rt: &(impl Files + Print + Eprint), name: &[u8]) {
    match std::str::from_utf8(name) {
        Ok(text) => replay_file(rt, text),
        Err(_) => say_failed(rt, "the log's name", io::Error::from_raw_os_error(NO_TEXT)),
    }
}

fn has_argument(rt: &impl Env, i: usize) -> bool {
    let mut start = [0u8; 1];
    !matches!(rt.arg(i, &mut start), Err(FillError::NotPresent))
}

fn main(rt: HostRuntime) {
    if !has_argument(&rt, 1) {
        replay_input(&rt, &mut rt.stdin(), "standard input");
        return;
    }
    if has_argument(&rt, 2) {
        let _ = eprintln!(rt; "replay: more than one log");
        return;
    }
    let mut name = [0u8; NAME];
    match rt.arg(1, &mut name) {
        Ok(length) => replay_named(&rt, &name[..length]),
        Err(_) => say_failed(
            &rt,
            "the log's name",
            io::Error::from_raw_os_error(NAME_TOO_LONG),
        ),
    }
}
