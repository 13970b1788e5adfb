// 01, "The board": the slot words of the processes. One process's slots go by value into a change and come back.
#![tactic(auto)]

ghost use Rattle.std.specs.Prelude.{◌≡◌, ◌≤◌, ◌<◌, ◌^◌, length, set};
ghost use Rattle.address.specs.Layout.{process_slots};
ghost use Rattle.board.specs.Lists.{part, splice};
ghost use Rattle.slots.specs.Slots.{slot_index, slot_word};

use board::PROCESS_SLOTS;

// The slots of one process, by value.
#[derive(Clone, Copy)]
pub struct Slots {
    pub words: [u32; PROCESS_SLOTS],
}

impl Slots {
    // Attaches a segment to a slot, in place of what was there.
    pub fn attach(mut self, slot: usize, segment: u64, write: bool) -> Slots
        requires { (slot < process_slots) × (segment < 2 ^ 22) }
        ensures { result.words ≡ set self.words slot (slot_word segment write) }
    {
        self.words[slot] = (segment * 2 + u64::from(write)) as u32;
        self
    }

    // Empties a slot.
    pub fn detach(mut self, slot: usize) -> Slots
        requires { slot < process_slots }
        ensures { result.words ≡ set self.words slot 0 }
    {
        self.words[slot] = 0;
        self
    }
}

// One process's slots, copied out of the caller's buffer.
fn slots_of(slots: &[u32], process: usize) -> Slots
    requires { slot_index process process_slots ≤ length slots.now }
    ensures { result.words ≡ part slots.now (slot_index process 0) process_slots }
{
    let a = process * PROCESS_SLOTS;
    let mut words = [0; PROCESS_SLOTS];
    words.copy_from_slice(&slots[a..a + PROCESS_SLOTS]);
    Slots { words }
}

// One process's slots, copied back.
fn put_slots(slots: &mut [u32], process: usize, one: Slots)
    requires { slot_index process process_slots ≤ length slots.old }
    ensures { slots.new ≡ splice slots.old (slot_index process 0) one.words }
{
    let a = process * PROCESS_SLOTS;
    slots[a..a + PROCESS_SLOTS].copy_from_slice(&one.words);
}

// Attaches a segment to a slot of a process.
pub fn attach_slot(slots: &mut [u32], process: usize, slot: usize, segment: u64, write: bool)
    requires { (slot_index process process_slots ≤ length slots.old) × (slot < process_slots) × (segment < 2 ^ 22) }
    ensures { slots.new ≡ set slots.old (slot_index process slot) (slot_word segment write) }
{
    let one = slots_of(slots, process);
    put_slots(slots, process, one.attach(slot, segment, write));
}

// Empties a slot of a process.
pub fn detach_slot(slots: &mut [u32], process: usize, slot: usize)
    requires { (slot_index process process_slots ≤ length slots.old) × (slot < process_slots) }
    ensures { slots.new ≡ set slots.old (slot_index process slot) 0 }
{
    let one = slots_of(slots, process);
    put_slots(slots, process, one.detach(slot));
}
