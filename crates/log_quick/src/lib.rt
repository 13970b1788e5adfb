// A user access whose numbers lie whole in a piece of a log, read at once. Whatever isn't plain is left to the reader that goes byte
// by byte.
#![tactic(auto)]

ghost use Rattle.std.specs.Prelude.{◌≡◌, ◌+◌, ◌≤◌, get_or, length};
ghost use Rattle.log_quick.specs.Quick.{NumberAt, Ended, UserIsAt};

use log_entries::{Kind, WORD_MOST, most_value};
use log_numbers::GROUP;

// A number, and how many bytes it has.
#[derive(Clone, Copy, Debug, PartialEq, Eq)]
struct Number {
    value: u64,
    count: usize,
}

// A user access, and how many bytes it has.
#[derive(Clone, Copy, Debug, PartialEq, Eq)]
pub struct UserAt {
    pub process: u64,
    pub store: u64,
    pub width: u64,
    pub address: u64,
    pub value: u64,
    pub count: usize,
}

// The most bytes that a plain user access has.
pub const USER_BYTES: usize = 18;

// A number whose last group is `last`, after others, if it is plain.
fn ended(last: u64, value: u64, count: usize) -> Option<Number>
    ensures { Ended last value count result }
{
    if last == 0 {
        return None;
    }
    Some(Number { value, count })
}

// The number of at most five bytes from `from` on, if it is plain. Read byte after byte and not by a loop: the reader's speed rests on it,
// and on its being inline: an `Option` of two words would come back through memory.
#[inline(always)]
fn number_at(piece: &[u8], from: usize) -> Option<Number>
    requires { from + 5 ≤ length piece.now }
    ensures { NumberAt piece.now from result }
{
    let a = u64::from(piece[from]);
    if a < GROUP {
        return Some(Number { value: a, count: 1 });
    }
    let b = u64::from(piece[from + 1]);
    if b < GROUP {
        return ended(b, a % GROUP + GROUP * b, 2);
    }
    let c = u64::from(piece[from + 2]);
    if c < GROUP {
        return ended(c, a % GROUP + GROUP * (b % GROUP + GROUP * c), 3);
    }
    let d = u64::from(piece[from + 3]);
    if d < GROUP {
        return ended(
            d,
            a % GROUP + GROUP * (b % GROUP + GROUP * (c % GROUP + GROUP * d)),
            4,
        );
    }
    let e = u64::from(piece[from + 4]);
    if e < GROUP {
        return ended(
            e,
            a % GROUP + GROUP * (b % GROUP + GROUP * (c % GROUP + GROUP * (d % GROUP + GROUP * e))),
            5,
        );
    }
    None
}

// The user access from `from` on, where its kind stands, if it is plain. Not inline: it would take the registers of what is read byte by byte.
#[inline(never)]
fn fields_at(piece: &[u8], from: usize) -> Option<UserAt>
    requires { (from + 18 ≤ length piece.now) × (get_or piece.now from 0 ≡ 1) }
    ensures { UserIsAt piece.now from result }
{
    let p = number_at(piece, from + 1)?;
    let flags = from + 1 + p.count;
    let store = u64::from(piece[flags]);
    let width = u64::from(piece[flags + 1]);
    let a = number_at(piece, flags + 2)?;
    let v = number_at(piece, flags + 2 + a.count)?;
    if (store <= 1) & (width < GROUP) & (a.value <= WORD_MOST) & (v.value <= most_value(store)) {
        return Some(UserAt {
            process: p.value,
            store,
            width,
            address: a.value,
            value: v.value,
            count: 1 + p.count + 2 + a.count + v.count,
        });
    }
    None
}

// The user access from `from` on, if it is plain.
pub fn user_at(piece: &[u8], from: usize) -> Option<UserAt>
    requires { from + 18 ≤ length piece.now }
    ensures { UserIsAt piece.now from result }
{
    if u64::from(piece[from]) != Kind::UserAccess as u64 {
        return None;
    }
    fields_at(piece, from)
}
