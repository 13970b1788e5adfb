// How answers, accesses, tags and the entry of a page cross to C and Rust: an answer as one number, number * 2^56 + mark * 2^32 + value;
// an entry as number * 2^44 + its global address.
#![tactic(auto)]

ghost use Rattle.std.specs.Prelude.{◌≡◌};
ghost use Rattle.board.specs.Refusals.{call_answer, access_answer};
ghost use Rattle.crossing.specs.Packing.{unpacked, Small, word_after, tag_of, access};
ghost use Rattle.crossing.specs.Entries.{EntryReturned};

use address::GLOBAL_END;
use board::{Accessed, Answer, Pending, Refusal};
use stores::Access;

const NUMBER_UNIT: u64 = 72057594037927936;

const MARK_UNIT: u64 = 4294967296;

// An answer as one number.
fn packed(a: Answer) -> u64
    requires { Small a }
    ensures { unpacked result ≡ a }
{
    u64::from(a.number) * NUMBER_UNIT + u64::from(a.mark) * MARK_UNIT + u64::from(a.value)
}

// What a call gives that is no access, as one number.
pub fn packed_call(r: Result<(), Refusal>) -> u64
    ensures { unpacked result ≡ call_answer r }
{
    packed(Answer::from(r))
}

// What an access gives, as one number.
pub fn packed_access(r: Result<Accessed, Refusal>) -> u64
    ensures { unpacked result ≡ access_answer r }
{
    packed(Answer::from(r))
}

// The entry of a page as one number.
pub fn returned_entry(page: u64) -> u64
    ensures { EntryReturned page result }
{
    match address::asked_entry(page) {
        Some(g) => g.0,
        None => u64::from(Refusal::OutOfRange.number()) * GLOBAL_END,
    }
}

// A pending tag by its two numbers.
pub fn tag_of(set: u32, name: u64) -> Pending
    ensures { result ≡ tag_of set name }
{
    Pending {
        set: set != 0,
        name,
    }
}

// The tag back in its two numbers.
pub fn put_tag(tag: Pending, set: &mut u32, name: &mut u64)
    ensures set { set.new ≡ word_after set.old tag.set }
    ensures name { name.new ≡ tag.name }
{
    *set = word_after(*set, tag.set);
    *name = tag.name;
}

// An access by its three numbers.
pub fn access(store: u32, width: u32, value: u32) -> Access
    ensures { result ≡ access store width value }
{
    Access {
        store: store != 0,
        width,
        value,
    }
}

// The word of a flag after a call: the caller's own while it says the same, else 1 or 0.
fn word_after(before: u32, set: bool) -> u32
    ensures { result ≡ word_after before set }
{
    if set {
        if before == 0 {
            return 1;
        }
        return before;
    }
    0
}
