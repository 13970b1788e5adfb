// A list of user accesses in one call: accesses in, answers out, each as one number.
#![tactic(auto)]

ghost use Rattle.std.specs.Prelude.{◌≡◌, true, ◌+◌, ◌*◌, ◌≤◌, eqb, length};
ghost use Rattle.board.specs.Refusals.{call_answer};
ghost use Rattle.board.specs.Shapes.{fits_shape};
ghost use Rattle.machine.specs.Boards.{outcome, sets_board};
ghost use Rattle.machine.specs.Lists.{access_words, ask_at, asks_from, answered, access_on, one_by_one};
ghost use Rattle.machine.specs.Clauses.{UserAccesses};
ghost use Rattle.crossing.specs.Packing.{unpacked, unpacked_all};
ghost use Rattle.user_lists.specs.Asks.{ask_of};

use address::Effective;
use board::{Answer, Pending, Refusal, Shape};
use stores::Access;

// The words of an access in a list: process, load or store, width, effective address, value.
const ACCESS_WORDS: usize = 5;

// An access of a list.
#[derive(Clone, Copy)]
struct Ask {
    process: usize,
    access: Access,
    address: Effective,
}

// Access `i` of a list, by its five words.
fn ask_at(accesses: &[u32], i: usize) -> Ask
    requires { access_words * i + access_words ≤ length accesses.now }
    ensures { ask_of result ≡ ask_at accesses.now i }
{
    let at = ACCESS_WORDS * i;
    Ask {
        process: accesses[at] as usize,
        access: Access {
            store: accesses[at + 1] != 0,
            width: accesses[at + 2],
            value: accesses[at + 4],
        },
        address: Effective(accesses[at + 3]),
    }
}

// Does access `i` of a list and gives its answer.
fn one_access(
    s: Shape,
    slots: &[u32],
    words: &[u64],
    records: &mut [u64],
    cache: &mut [u8],
    memory: &mut [u8],
    uses: &mut [[[u8; 4]; 4]],
    tag: Pending,
    accesses: &[u32],
    i: usize,
) -> u64
    requires { (fits_shape s (length slots.now) (length words.now) (length records.old) (length cache.old) (length memory.old) (length uses.old) ≡ true) × (access_words * i + access_words ≤ length accesses.now) }
    ensures { outcome (unpacked result) (sets_board slots.now words.now records.new cache.new memory.new uses.new tag) ≡ access_on s (sets_board slots.now words.now records.old cache.old memory.old uses.old tag) (ask_at accesses.now i) }
{
    let k = ask_at(accesses, i);
    let r = user_access::fitting_access(
        s, slots, words, records, cache, memory, uses, tag, k.process, k.access, k.address,
    );
    crossing::packed_access(r)
}

// Does all accesses of a list, each on what the one before it left, and puts each answer at its place.
// (By its number: of what is written through `iter_mut().zip(..)` no proof knows anything afterwards.)
fn all_accesses(
    s: Shape,
    slots: &[u32],
    words: &[u64],
    records: &mut [u64],
    cache: &mut [u8],
    memory: &mut [u8],
    uses: &mut [[[u8; 4]; 4]],
    tag: Pending,
    accesses: &[u32],
    answers: &mut [u64],
)
    requires { (fits_shape s (length slots.now) (length words.now) (length records.old) (length cache.old) (length memory.old) (length uses.old) ≡ true) × (length accesses.now ≡ access_words * length answers.old) }
    ensures { answered (unpacked_all answers.new) (sets_board slots.now words.now records.new cache.new memory.new uses.new tag) ≡ one_by_one s (sets_board slots.now words.now records.old cache.old memory.old uses.old tag) (asks_from accesses.now 0 (length answers.old)) }
{
    for (i, answer) in answers.iter_mut().enumerate() {
        let x = one_access(
            s, slots, words, records, cache, memory, uses, tag, accesses, i,
        );
        *answer = x;
    }
}

// A list has five words for each answer.
fn lists_agree(accesses: usize, answers: usize) -> bool
    ensures { result ≡ eqb accesses (access_words * answers) }
{
    (accesses / ACCESS_WORDS == answers) & (accesses % ACCESS_WORDS == 0)
}

// A list of user accesses.
pub fn user_accesses(
    s: Shape,
    slots: &[u32],
    words: &[u64],
    records: &mut [u64],
    cache: &mut [u8],
    memory: &mut [u8],
    uses: &mut [[[u8; 4]; 4]],
    tag: Pending,
    accesses: &[u32],
    answers: &mut [u64],
) -> Result<(), Refusal>
    ensures { UserAccesses s (sets_board slots.now words.now records.old cache.old memory.old uses.old tag) accesses.now (unpacked_all answers.old) (call_answer result) (answered (unpacked_all answers.new) (sets_board slots.now words.now records.new cache.new memory.new uses.new tag)) }
{
    s.fit(slots, words, records, cache, memory, uses)?;
    if !lists_agree(accesses.len(), answers.len()) {
        return Err(Refusal::Unfit);
    }
    all_accesses(
        s, slots, words, records, cache, memory, uses, tag, accesses, answers,
    );
    Ok(())
}
