// 01, "Calls": a supervisor's load or store, by global address.
#![tactic(auto)]

ghost use Rattle.std.specs.Prelude.{◌≡◌};
ghost use Rattle.board.specs.Refusals.{access_answer};
ghost use Rattle.machine.specs.Clauses.{SupervisorAccess};
ghost use Rattle.supervisor_access.specs.Plans.{region_plan, waits, supervisor_plan};
ghost use Rattle.machine.specs.Boards.{sets_board};

use address::{GLOBAL_END, Global, Physical, Region};
use board::{Accessed, Pending, Refusal, Shape};
use pages::PageMap;
use stores::Access;

// Where a supervisor access goes: to the line of an address, or past the cache to an address in memory.
#[derive(Clone, Copy)]
enum Place {
    Line(Global),
    Memory(Physical),
}

// Numbers 10 and 12 of an access under prefix 1, or its line.
fn cached_plan(map: &PageMap, g: Global) -> Result<Place, Refusal>
    ensures { result ≡ region_plan map.now.shape map.now.words.now g Region.Cached }
{
    let frame = g.physical().frame();
    if map.shape.frames <= frame {
        return Err(Refusal::Outside);
    }
    if map.words[frame] != 0 {
        return Err(Refusal::FrameInUse);
    }
    if frame < map.shape.uncached {
        return Err(Refusal::Outside);
    }
    Ok(Place::Line(g))
}

// Numbers 10 and 12 of a supervisor access, or where it goes.
fn region_plan(map: &PageMap, g: Global, region: Region) -> Result<Place, Refusal>
    ensures { result ≡ region_plan map.now.shape map.now.words.now g region }
{
    match region {
        Region::Ordinary => Ok(Place::Line(g)),
        Region::Cached => cached_plan(map, g),
        Region::Uncached => {
            let p = g.physical();
            if map.shape.uncached <= p.frame() {
                return Err(Refusal::Outside);
            }
            Ok(Place::Memory(p))
        }
        Region::PageTable => Err(Refusal::Outside),
    }
}

// A supervisor access to an ordinary address waits for a pending tag.
fn must_wait(tag: Pending, region: Region) -> bool
    ensures { result ≡ waits tag region }
{
    matches!(region, Region::Ordinary) & tag.set
}

// Numbers 2, 3, 4, 10 and 12 of a supervisor access, or where it goes. The value is asked next to the width,
// as in a user access, and before number 3 is given.
fn supervisor_plan(map: &PageMap, tag: Pending, a: Access, g: Global) -> Result<Place, Refusal>
    ensures { result ≡ supervisor_plan map.now.shape map.now.words.now tag a g }
{
    if g.0 >= GLOBAL_END {
        return Err(Refusal::OutOfRange);
    }
    let region = g.region();
    if must_wait(tag, region) {
        if line_access::too_large(a) {
            return Err(Refusal::OutOfRange);
        }
        return Err(Refusal::TagState);
    }
    if line_access::too_large(a) {
        return Err(Refusal::OutOfRange);
    }
    if !line_access::aligned(a.width, g.0) {
        return Err(Refusal::Misaligned);
    }
    region_plan(map, g, region)
}

// A supervisor's load or store by global address.
pub fn supervisor_access(
    s: Shape,
    slots: &[u32],
    words: &[u64],
    records: &mut [u64],
    cache: &mut [u8],
    memory: &mut [u8],
    uses: &mut [[[u8; 4]; 4]],
    tag: Pending,
    a: Access,
    g: Global,
) -> Result<Accessed, Refusal>
    ensures { SupervisorAccess s (sets_board slots.now words.now records.old cache.old memory.old uses.old tag) a g (access_answer result) (sets_board slots.now words.now records.new cache.new memory.new uses.new tag) }
{
    s.fit(slots, words, records, cache, memory, uses)?;
    // (the view is made again for a line: one for both costs an access past the cache five instructions more)
    match supervisor_plan(&PageMap { shape: s, words }, tag, a, g)? {
        Place::Line(h) => {
            let map = PageMap { shape: s, words };
            line_access::line_access(&map, records, cache, memory, uses, h, false, a)
        }
        Place::Memory(p) => Ok(line_access::memory_access(records, cache, memory, p, a)),
    }
}
