// The checker and the repair of a dumped board for C and Rust (CR 13): numbers and slices go in, and the report comes back as one number.
// Neither asks anything of the numbers or of the buffers' lengths.
#![tactic(auto)]

ghost use Rattle.std.specs.Prelude.{◌≡◌};
ghost use Rattle.board.specs.Shapes.{one_line};
ghost use Rattle.board.specs.declared.Pending.{Pending};
ghost use Rattle.dumps.specs.Clauses.{Check};
ghost use Rattle.repairs.specs.Clauses.{Repair};
ghost use Rattle.oaledva_dump.specs.Reports.{unpacked, Small};
ghost use Rattle.machine.specs.Boards.{board};
ghost use Rattle.stores.specs.Lent.{lent};

use board::Shape;
use dumps::Report;

// Where number, rule and count stand in a report's number; the place stands below them.
const NUMBER_UNIT: u64 = 1 << 56;

const RULE_UNIT: u64 = 1 << 48;

const DROPPED_UNIT: u64 = 1 << 24;

// A report as one number.
fn packed_report(r: Report) -> u64
    requires { Small r }
    ensures { unpacked result ≡ r }
{
    (r.number as u64) * NUMBER_UNIT
        + (r.rule as u64) * RULE_UNIT
        + (r.dropped as u64) * DROPPED_UNIT
        + (r.place as u64)
}

// Checks a board.
#[unsafe(no_mangle)]
pub extern "C" fn oaledva_check(
    frames: usize,
    uncached: usize,
    processes: usize,
    lines: usize,
    slots: &[u32],
    words: &[u64],
    records: &[u64],
    cache: &[u8],
    memory: &[u8],
    keys: &mut [u64],
    links: &mut [u64],
) -> u64
    ensures { (tag : Pending) → Check (one_line frames uncached processes lines) (board slots.now words.now records.now cache.now memory.now tag) (lent keys.old keys.new) (lent links.old links.new) (unpacked result) }
{
    let s = Shape::one_line(frames, uncached, processes, lines);
    let found = dumps::check(s, slots, words, records, cache, memory, keys, links);
    packed_report(Report::from(found))
}

// Repairs a board, and flags the lines that it dropped.
#[unsafe(no_mangle)]
pub extern "C" fn oaledva_repair(
    frames: usize,
    uncached: usize,
    processes: usize,
    lines: usize,
    slots: &[u32],
    words: &[u64],
    records: &mut [u64],
    cache: &[u8],
    memory: &[u8],
    keys: &mut [u64],
    links: &mut [u64],
    dropped: &mut [u8],
) -> u64
    ensures { (tag : Pending) → Repair (one_line frames uncached processes lines) (board slots.now words.now records.old cache.now memory.now tag) (lent keys.old keys.new) (lent links.old links.new) (lent dropped.old dropped.new) (unpacked result) (board slots.now words.now records.new cache.now memory.now tag) }
{
    let s = Shape::one_line(frames, uncached, processes, lines);
    let mended = repairs::repair(
        s, slots, words, records, cache, memory, keys, links, dropped,
    );
    packed_report(Report::from(mended))
}
