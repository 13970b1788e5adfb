// The lowest place whose key stands again at a higher one, found with a tree of the places: a key for each place and two links for
// each, in words that the caller lends. A search turns once for each bit of its key at most.
#![tactic(auto)]

ghost use Rattle.std.specs.Prelude.{◌≡◌, ◌*◌, ◌≤◌, ◌<◌, length};
ghost use Rattle.doubles.specs.Trees.{Tree, Sought, Placed};
ghost use Rattle.board.specs.Searches.{first};
ghost use Rattle.doubles.specs.Doubles.{repeats};

// Where the search for a key ends: at a place that has the key, or at an open link. An enum of its own, as std's `Entry` with its
// occupied and vacant places: a `Result<usize, usize>` would not say which of its two numbers is a place and which a link.
#[derive(Clone, Copy)]
pub enum Spot {
    Taken(usize),
    Open(usize),
}

// Searches the tree of the places below `i` for the key of place `i`.
fn seek(keys: &[u64], links: &[u64], i: usize) -> Spot
    requires { Tree keys.now links.now i × (i < length keys.now) × (2 * length keys.now ≤ length links.now) × (1 ≤ i) }
    ensures { Sought keys.now links.now i result }
{
    let key = keys[i];
    let mut node: usize = 0;
    let mut rest = key;
    while keys[node] != key {
        let slot = 2 * node + (rest % 2) as usize;
        let next = links[slot] as usize;
        if next == 0 {
            return Spot::Open(slot);
        }
        node = next;
        rest = rest / 2;
    }
    Spot::Taken(node)
}

// Puts place `i` into the tree of the places below it, unless it has no key or a lower place has its key. Gives that lower place, else `i`:
// a place either way, and no Option, since callers ask only whether it is `i`, or for the lower of it and another.
pub fn place(keys: &[u64], links: &mut [u64], i: usize) -> usize
    requires { Tree keys.now links.old i × (i < length keys.now) × (2 * length keys.now ≤ length links.old) }
    ensures { Placed keys.now links.old links.new i result }
{
    if i == 0 {
        return 0;
    }
    if keys[i] == 0 {
        return i;
    }
    match seek(keys, links, i) {
        Spot::Taken(node) => node,
        Spot::Open(slot) => {
            links[slot] = i as u64;
            i
        }
    }
}

// An empty tree.
pub fn plant(keys: &[u64], links: &mut [u64])
    ensures { (length links.new ≡ length links.old) × Tree keys.now links.new 0 }
{
    links.fill(0);
}

// The lowest place whose key a higher place has too, with two links for each key.
fn double_in(keys: &[u64], links: &mut [u64]) -> Option<usize>
    requires { 2 * length keys.now ≤ length links.old }
    ensures { (result ≡ first (repeats keys.now) 0 (length keys.now)) × (length links.new ≡ length links.old) }
{
    plant(keys, links);
    let mut best = keys.len();
    for i in 0..keys.len() {
        let at = place(keys, links, i);
        if at < i {
            best = best.min(at);
        }
    }
    if best < keys.len() {
        return Some(best);
    }
    None
}

// The same, of links that may hold anything: two for each key, and those behind them are not touched.
pub fn lowest_double(keys: &[u64], links: &mut [u64]) -> Option<usize>
    requires { 2 * length keys.now ≤ length links.old }
    ensures { (result ≡ first (repeats keys.now) 0 (length keys.now)) × (length links.new ≡ length links.old) }
{
    let n = 2 * keys.len();
    double_in(keys, &mut links[0..n])
}
