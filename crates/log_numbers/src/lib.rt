// The numbers of a log: groups of seven bits, low group first, the top bit set on all but the last (CR 1).
#![tactic(auto)]

ghost use Rattle.std.specs.Prelude.{◌≡◌, ◌+◌, ◌≤◌, ◌<◌, ◌^◌, length};
ghost use Rattle.board.specs.Lists.{splice};
ghost use Rattle.log_numbers.specs.Numbers.{group_size, groups_before, groups_of, take_byte};
ghost use Rattle.log_numbers.specs.Takes.{number_of, IsReasonOf, taken_of};

use std::error::Error;
use std::fmt;

// Why a log is refused, or an entry that is to be written, by its number for C.
#[derive(Clone, Copy, Debug, PartialEq, Eq)]
pub enum Reason {
    Misfit = 1,
    Padded = 2,
    Tenth = 3,
    Cut = 4,
    Kind = 5,
    Field = 6,
}

impl Reason {
    // Its number, which is never 0.
    pub fn number(self) -> u64
        ensures { result ≡ number_of self }
    {
        self as u64
    }
}

impl TryFrom<u64> for Reason {
    type Error = Reason;

    ghost try_from_gives = { IsReasonOf };

    fn try_from(n: u64) -> Result<Self, Reason> {
        match n {
            1 => Ok(Reason::Misfit),
            2 => Ok(Reason::Padded),
            3 => Ok(Reason::Tenth),
            4 => Ok(Reason::Cut),
            5 => Ok(Reason::Kind),
            6 => Ok(Reason::Field),
            _ => Err(Reason::Misfit),
        }
    }
}

impl fmt::Display for Reason {
    fn fmt<W: fmt::Write>(&self, f: &mut fmt::Formatter<W>) -> fmt::Result {
        f.write_str(match self {
            Reason::Misfit => "buffers that don't fit, or words that are no reader's",
            Reason::Padded => "a number's last group is 0 after others",
            Reason::Tenth => "a number's tenth byte is above 1",
            Reason::Cut => "the log is cut",
            Reason::Kind => "a kind that is not known",
            Reason::Field => "a field that is too large",
        })
    }
}

impl Error for Reason {}

// A group is a number below this; a byte from it up has its top bit set.
pub const GROUP: u64 = 128;

const GROUP_BITS: u64 = 7;

// How many groups may stand before the last.
pub const GROUPS_BEFORE: u64 = 9;

// What a byte makes of a number: one more group (what the groups are worth then), or the last one (the number).
#[derive(Clone, Copy, Debug, PartialEq, Eq)]
pub enum Taken {
    More(u64),
    Whole(u64),
}

// What the lowest bit of a group is worth, after so many groups.
pub fn weight(groups: u64) -> u64
    requires { groups ≤ groups_before }
    ensures { result ≡ group_size ^ groups }
{
    1 << (GROUP_BITS * groups)
}

// A byte after some groups of a number, which are worth `sum`. It may be refused: why.
pub fn take_byte(groups: u64, sum: u64, b: u8) -> Result<Taken, Reason>
    requires { (groups ≤ groups_before) × (sum < group_size ^ groups) }
    ensures { taken_of result ≡ take_byte groups sum b }
{
    let byte = u64::from(b);
    if (groups == GROUPS_BEFORE) & (1 < byte) {
        return Err(Reason::Tenth);
    }
    if GROUP <= byte {
        return Ok(Taken::More(sum + byte % GROUP * weight(groups)));
    }
    if (groups != 0) & (byte == 0) {
        return Err(Reason::Padded);
    }
    Ok(Taken::Whole(sum + byte * weight(groups)))
}

// Writes a number's bytes from `at` on, and says where they end.
pub fn put_number(n: u64, bytes: &mut [u8], at: usize) -> usize
    requires { at + 10 ≤ length bytes.old }
    ensures { (bytes.new ≡ splice bytes.old at (groups_of n)) × (result ≡ at + length (groups_of n)) }
{
    let mut rest = n;
    let mut next = at;
    while GROUP <= rest {
        bytes[next] = (GROUP + rest % GROUP) as u8;
        rest /= GROUP;
        next += 1;
    }
    bytes[next] = rest as u8;
    next + 1
}
