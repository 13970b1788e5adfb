// The matrix of a set of four (CR 4): who was used after whom. It goes by value; of all sets' matrices one is changed in place.
#![tactic(auto)]

ghost use Rattle.std.specs.Prelude.{◌≡◌, [], ◌+◌, ◌<◌, ◌≤◌, get_or, set, length};
ghost use Rattle.sets.specs.Matrices.{used as used_of, one, ones_of, fewer, fewest};

// Line `r` was used: its row is set, then its column cleared.
fn used(m: [[u8; 4]; 4], r: usize) -> [[u8; 4]; 4]
    requires { r < 4 }
    ensures { result ≡ used_of m r }
{
    let mut n = m;
    n[r] = [1; 4];
    for row in n.iter_mut() {
        row[r] = 0;
    }
    n
}

// An entry that is not 0 is a one.
fn one_of(x: u8) -> u32
    ensures { (result ≡ one x) × (result ≤ 1) }
{
    u32::from(x != 0)
}

// How many ones a row has. (By `filter` and `count` this is slower: a branch for each entry.)
fn ones_of(row: [u8; 4]) -> u32
    ensures { result ≡ ones_of row }
{
    one_of(row[0]) + one_of(row[1]) + one_of(row[2]) + one_of(row[3])
}

// Of two lines the first, unless the second's row has fewer ones.
fn fewer_of(m: [[u8; 4]; 4], a: usize, b: usize) -> usize
    requires { (a < 4) × (b < 4) }
    ensures { (result ≡ fewer m a b) × (result < 4) }
{
    if ones_of(m[a]) <= ones_of(m[b]) { a } else { b }
}

// The lowest line whose row has the fewest ones.
pub fn fewest_of(m: [[u8; 4]; 4]) -> usize
    ensures { (result ≡ fewest m) × (result < 4) }
{
    let a = fewer_of(m, 0, 1);
    let b = fewer_of(m, a, 2);
    fewer_of(m, b, 3)
}

// Notes a use of line `r` in the matrix of a set.
pub fn note(uses: &mut [[[u8; 4]; 4]], at: usize, r: usize)
    requires { (at < length uses.old) × (r < 4) }
    ensures { uses.new ≡ set uses.old at (used_of (get_or uses.old at []) r) }
{
    uses[at] = used(uses[at], r);
}
