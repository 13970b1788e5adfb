// The repair of a dumped board (CR 13): it writes nothing to memory and only drops lines.
#![tactic(auto)]

ghost use Rattle.std.specs.Prelude.{◌≡◌, not, ◌&&◌, ◌+◌, ◌*◌, ◌≤◌, length};
ghost use Rattle.board.specs.declared.Pending.{Pending};
ghost use Rattle.pages.specs.Pages.{home_of};
ghost use Rattle.lines.specs.Holds.{holds_at};
ghost use Rattle.lines.specs.Premises.{Lined};
ghost use Rattle.stores.specs.Premises.{Sized};
ghost use Rattle.dump_pages.specs.Pages.{doubled_page};
ghost use Rattle.dumps.specs.Results.{mended_report, repair_report};
ghost use Rattle.repairs.specs.Repairs.{repaired, dropped_flags, dropped_count, repair_outcome, mended_lines, mended_pages};
ghost use Rattle.repairs.specs.Steps.{kept_at, mended_to};
ghost use Rattle.repairs.specs.Clauses.{Repair};
ghost use Rattle.machine.specs.Boards.{board};
ghost use Rattle.stores.specs.Stores.{store};
ghost use Rattle.stores.specs.Lent.{lent};

use board::Shape;
use dump_lines::Dump;
use dumps::{Broken, Mended, Rule, ScratchTooShort};

// Drops the line of record `i` unless it is to be kept, and says whether it did.
fn mend_line(s: Shape, records: &mut [u64], i: usize, keep: bool) -> bool
    requires { Lined s × (2 * i + 2 ≤ length records.old) }
    ensures { (records.new ≡ mended_to s i keep records.old) × (result ≡ (holds_at s records.old i && not keep)) }
{
    let l = lines::line_at(records, i);
    let held = lines::holds(s, i, l);
    let gone = held & !keep;
    if gone {
        lines::drop_line(records, i);
    }
    gone
}

// Place `i` is to be kept: it has a key, and is the place that the tree has for it.
fn is_kept(key: u64, at: usize, i: usize) -> bool
    ensures { result ≡ kept_at key at i }
{
    (key != 0) & (at == i)
}

// Keeps, by rising place, every line that breaks no rule alone or with a lower line that is kept, and drops the others. Flags those, and
// gives their number.
fn repair_lines(
    s: Shape,
    words: &[u64],
    records: &mut [u64],
    cache: &[u8],
    memory: &[u8],
    keys: &mut [u64],
    links: &mut [u64],
    dropped: &mut [u8],
) -> usize
    requires { Sized s records.old cache.now memory.now × (length words.now ≡ s.frames) × (doubled_page s words.now ≡ None) × (length keys.old ≡ s.lines) × (2 * s.lines ≤ length links.old) × (length dropped.old ≡ s.lines) }
    ensures { (store records.new cache.now memory.now ≡ repaired s (home_of s words.now) (store records.old cache.now memory.now)) × (dropped.new ≡ dropped_flags s records.old records.new) × (result ≡ dropped_count s records.old records.new) }
{
    let dump = Dump {
        shape: s,
        words,
        records: &*records,
        cache,
        memory,
    };
    dump.place_keys(true, keys);
    doubles::plant(keys, links);
    let mut count: usize = 0;
    for i in 0..s.lines {
        let at = doubles::place(keys, links, i);
        let keep = is_kept(keys[i], at, i);
        let gone = mend_line(s, records, i, keep);
        dropped[i] = u8::from(gone);
        count += usize::from(gone);
    }
    count
}

// Says which of the rules 3 to 5 is broken first, and repairs the lines. What is asked of the board stands here and in `repair_lines` as a
// `requires`, and not in a struct: the records are lent to be written, and a `Dump` lends them to be read.
fn mend_lines(
    s: Shape,
    words: &[u64],
    records: &mut [u64],
    cache: &[u8],
    memory: &[u8],
    keys: &mut [u64],
    links: &mut [u64],
    dropped: &mut [u8],
) -> Mended
    requires { Sized s records.old cache.now memory.now × (length words.now ≡ s.frames) × (doubled_page s words.now ≡ None) × (s.lines ≤ length keys.old) × (2 * s.lines ≤ length links.old) × (length dropped.old ≡ s.lines) }
    ensures { repair_outcome (mended_report result) (store records.new cache.now memory.now) dropped.new ≡ mended_lines s (home_of s words.now) (store records.old cache.now memory.now) }
{
    let dump = Dump {
        shape: s,
        words,
        records: &*records,
        cache,
        memory,
    };
    let broken = dumps::check_lines(&dump, keys, links);
    let keys = &mut keys[0..s.lines];
    let links = &mut links[0..2 * s.lines];
    let dropped = repair_lines(s, words, records, cache, memory, keys, links, dropped);
    Mended { broken, dropped }
}

// Reports a doubled page and changes nothing, or repairs the lines.
fn mend_pages(
    s: Shape,
    words: &[u64],
    records: &mut [u64],
    cache: &[u8],
    memory: &[u8],
    keys: &mut [u64],
    links: &mut [u64],
    dropped: &mut [u8],
) -> Mended
    requires { Sized s records.old cache.now memory.now × (length words.now ≡ s.frames) × (s.frames ≤ length keys.old) × (2 * s.frames ≤ length links.old) × (s.lines ≤ length keys.old) × (2 * s.lines ≤ length links.old) × (length dropped.old ≡ s.lines) }
    ensures { repair_outcome (mended_report result) (store records.new cache.now memory.now) dropped.new ≡ mended_pages s words.now (store records.old cache.now memory.now) dropped.old (doubled_page s words.now) }
{
    match dump_pages::doubled_page(s, words, &mut keys[0..s.frames], links) {
        Some(f) => Mended {
            broken: Some(Broken::new(Rule::PageOnce, f)),
            dropped: 0,
        },
        None => mend_lines(s, words, records, cache, memory, keys, links, dropped),
    }
}

// Repairs a board of 01's edition, flags the lines that it dropped, and says what the checker said before and how many they are. Wrong
// lengths and doubled pages are reported, and nothing is changed.
pub fn repair(
    s: Shape,
    slots: &[u32],
    words: &[u64],
    records: &mut [u64],
    cache: &[u8],
    memory: &[u8],
    keys: &mut [u64],
    links: &mut [u64],
    dropped: &mut [u8],
) -> Result<Mended, ScratchTooShort>
    ensures { (tag : Pending) → Repair s (board slots.now words.now records.old cache.now memory.now tag) (lent keys.old keys.new) (lent links.old links.new) (lent dropped.old dropped.new) (repair_report result) (board slots.now words.now records.new cache.now memory.now tag) }
{
    if s.fit(slots, words, records, cache, memory, &[]).is_err() {
        return Ok(Mended {
            broken: Some(Broken::new(Rule::Lengths, 0)),
            dropped: 0,
        });
    }
    if !dumps::has_room(s, keys.len(), links.len()) {
        return Err(ScratchTooShort);
    }
    if dropped.len() != s.lines {
        return Err(ScratchTooShort);
    }
    Ok(mend_pages(s, words, records, cache, memory, keys, links, dropped))
}
