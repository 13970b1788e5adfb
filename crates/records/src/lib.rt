// Line records as a lent slice of structs: protect and flush all decide before the lines and walk the slice, and each line
// goes by value through a function that says what happens to one line.
#![tactic(auto)]

ghost use Rattle.board.specs.Refusals.{call_answer};
ghost use Rattle.record_steps.specs.Clauses.{ProtectLent, FlushLent};
ghost use Rattle.record_steps.specs.Lent.{lent_board};

use board::{Refusal, Shape};
use lines::Line;

// Changes a page's write bit, and that of every held line named in the page.
pub fn protect(
    s: Shape,
    slots: &[u32],
    words: &mut [u64],
    lines: &mut [Line],
    cache: &[u8],
    memory: &[u8],
    page: u64,
    write: bool,
) -> Result<(), Refusal>
    ensures { ProtectLent s (lent_board slots.now words.old lines.old cache.now memory.now) page write (call_answer result) (lent_board slots.now words.new lines.new cache.now memory.now) }
{
    record_steps::protect_word(
        s,
        slots.len(),
        words,
        lines.len(),
        cache.len(),
        memory.len(),
        page,
        write,
    )?;
    for (i, line) in lines.iter_mut().enumerate() {
        *line = record_steps::protect_line(s, i, *line, page, write);
    }
    Ok(())
}

// Writes every held and changed line back, by rising place, and drops every held line.
pub fn flush_all(
    s: Shape,
    slots: &[u32],
    words: &[u64],
    lines: &mut [Line],
    cache: &[u8],
    memory: &mut [u8],
) -> Result<(), Refusal>
    ensures { FlushLent s (lent_board slots.now words.now lines.old cache.now memory.old) (call_answer result) (lent_board slots.now words.now lines.new cache.now memory.new) }
{
    record_steps::fit_lines(
        s,
        slots.len(),
        words.len(),
        lines.len(),
        cache.len(),
        memory.len(),
    )?;
    for (i, line) in lines.iter_mut().enumerate() {
        *line = record_steps::flush_line(s, i, *line, cache, memory);
    }
    Ok(())
}
