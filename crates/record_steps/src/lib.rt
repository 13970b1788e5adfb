// Protect and flush all over line records: what they decide before the lines, and one line record by value.
#![tactic(auto)]

ghost use Rattle.std.specs.Prelude.{◌≡◌, ◌*◌, ◌<◌, ◌^◌, length};
ghost use Rattle.board.specs.Refusals.{fit, call_answer};
ghost use Rattle.board.specs.Shapes.{fits_shape, record_words};
ghost use Rattle.lines.specs.Premises.{Lined};
ghost use Rattle.visits.specs.Visits.{protect_visit, flush_visit};
ghost use Rattle.record_steps.specs.Lent.{line_visited, line_flushed};
ghost use Rattle.record_steps.specs.Checks.{Placed, worded, word_changed, flush_answer};

use address::PAGE_NAMES;
use board::{RECORD_WORDS, Refusal, Shape};
use lines::Line;

// Number 1 of both, by the lengths of the buffers.
pub fn fit_lines(
    s: Shape,
    slots: usize,
    words: usize,
    lines: usize,
    cache: usize,
    memory: usize,
) -> Result<(), Refusal>
    requires { record_words * lines < 2 ^ 64 }
    ensures { (result ≡ fit (fits_shape s slots words (record_words * lines) cache memory 0)) × (call_answer result ≡ flush_answer s slots words lines cache memory) }
{
    if board::fits(s, slots, words, RECORD_WORDS * lines, cache, memory, 0) {
        return Ok(());
    }
    Err(Refusal::Unfit)
}

// What protect does before it walks the lines: numbers 1, 2 and 8, by the lengths of the other buffers, or the frame word.
pub fn protect_word(
    s: Shape,
    slots: usize,
    words: &mut [u64],
    lines: usize,
    cache: usize,
    memory: usize,
    page: u64,
    write: bool,
) -> Result<(), Refusal>
    requires { record_words * lines < 2 ^ 64 }
    ensures { worded (call_answer result) words.new ≡ word_changed s slots words.old lines cache memory page write }
{
    fit_lines(s, slots, words.len(), lines, cache, memory)?;
    let f = page_calls::page_frame(s, words, page)?;
    words[f] = pages::frame_word(page, write);
    Ok(())
}

// What protect makes of line `i`.
pub fn protect_line(s: Shape, i: usize, l: Line, page: u64, write: bool) -> Line
    requires { Lined s }
    ensures { result ≡ line_visited s (protect_visit page write) i l }
{
    let h = lines::holds(s, i, l);
    if h & (l.name / PAGE_NAMES == page) {
        return Line { write, ..l };
    }
    l
}

// What flush all makes of line `i`, and of memory.
pub fn flush_line(s: Shape, i: usize, l: Line, cache: &[u8], memory: &mut [u8]) -> Line
    requires { Placed s i (length cache.now) (length memory.old) }
    ensures { (result ≡ line_visited s flush_visit i l) × (memory.new ≡ line_flushed s i l cache.now memory.old) }
{
    if lines::holds(s, i, l) {
        if l.changed {
            line_bytes::copy_line(memory, l.physical as usize, cache, i);
        }
        return Line {
            valid: false,
            name: 0,
            physical: 0,
            changed: false,
            write: false,
        };
    }
    l
}
