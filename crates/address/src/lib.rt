// 01, "Addresses": effective, global and physical addresses, what they reach, and page table entries.
#![tactic(auto)]

ghost use Rattle.std.specs.Prelude.{◌≡◌, ◌/◌, ◌<◌, ◌^◌};
ghost use Rattle.address.specs.Layout.{page_bytes, prefix_bytes, page_end};
ghost use Rattle.address.specs.Addresses.{slot_of, global_of, page_of, name_of, physical_line_of, frame_of_physical, prefix_of, region_of, physical_of, in_frame, entry_of, is_kernels, attachable, ordinary_page};
ghost use Rattle.address.specs.Entries.{has_entry, AskedEntry};

// An address as a process brings it: 32 bits.
#[derive(Clone, Copy)]
pub struct Effective(pub u32);

// An address in the one space that all processes share: 44 bits.
#[derive(Clone, Copy)]
pub struct Global(pub u64);

// An address in memory: 32 bits.
#[derive(Clone, Copy)]
pub struct Physical(pub u32);

// What a global address reaches.
#[derive(Clone, Copy)]
pub enum Region {
    Uncached,
    Cached,
    PageTable,
    Ordinary,
}

// The sizes of 01's address layout.
const SEGMENT_BYTES: u32 = 4194304;

pub const PAGE_BYTES: u64 = 4096;

pub const LINE_BYTES: u64 = 16;

const PREFIX_BYTES: u64 = 4294967296;

const KERNEL_START: u32 = 2147483648;

const TABLE_BYTES: u64 = 17179869184;

const TABLE_INDEX: u64 = 1023;

const FIRST_SEGMENT: u64 = 2048;

const LAST_SEGMENT: u64 = 4190207;

// A page is below this.
pub const PAGE_END: u64 = 4294967296;

const FIRST_PAGE: u64 = 2097152;

const LAST_PAGE: u64 = 4290772991;

// A global address is below this.
pub const GLOBAL_END: u64 = 17592186044416;

// The line names in a page.
pub const PAGE_NAMES: u64 = 256;

impl Effective {
    // The slot that the address goes through.
    pub fn slot(self) -> usize
        ensures { result ≡ slot_of self }
    {
        (self.0 / SEGMENT_BYTES) as usize
    }

    // The address in a segment: the translation.
    pub fn in_segment(self, segment: u64) -> Global
        requires { segment < 2 ^ 22 }
        ensures { result ≡ global_of segment self }
    {
        Global(segment * SEGMENT_BYTES as u64 + (self.0 % SEGMENT_BYTES) as u64)
    }

    // The address is the kernel's and not the users'.
    pub fn is_kernels(self) -> bool
        ensures { result ≡ is_kernels self }
    {
        KERNEL_START <= self.0
    }
}

impl Global {
    pub fn page(self) -> u64
        ensures { result ≡ page_of self }
    {
        self.0 / PAGE_BYTES
    }

    // The name of the line that the address lies in.
    pub fn name(self) -> u64
        ensures { result ≡ name_of self }
    {
        self.0 / LINE_BYTES
    }

    // The part above the 32 bits of a memory address.
    pub fn prefix(self) -> u64
        ensures { result ≡ prefix_of self }
    {
        self.0 / PREFIX_BYTES
    }

    pub fn region(self) -> Region
        ensures { result ≡ region_of self }
    {
        let prefix = self.prefix();
        if prefix == 0 {
            return Region::Uncached;
        }
        if prefix == 1 {
            return Region::Cached;
        }
        if self.0 / TABLE_BYTES == TABLE_INDEX {
            return Region::PageTable;
        }
        Region::Ordinary
    }

    // The memory address below prefixes 0 and 1.
    pub fn physical(self) -> Physical
        ensures { result ≡ physical_of self }
    {
        Physical((self.0 % PREFIX_BYTES) as u32)
    }

    // The address in a frame that its page is mapped to: the translation.
    pub fn in_frame(self, frame: usize) -> Physical
        requires { frame < prefix_bytes / page_bytes }
        ensures { result ≡ in_frame frame self }
    {
        Physical((frame as u64 * PAGE_BYTES + self.0 % PAGE_BYTES) as u32)
    }
}

impl Physical {
    pub fn line(self) -> usize
        ensures { result ≡ physical_line_of self }
    {
        (self.0 as u64 / LINE_BYTES) as usize
    }

    pub fn frame(self) -> usize
        ensures { result ≡ frame_of_physical self }
    {
        (self.0 as u64 / PAGE_BYTES) as usize
    }
}

// Where the page table entry of a page would stand, for any page.
fn entry_of(page: u64) -> Global
    requires { page < page_end }
    ensures { result ≡ entry_of page }
{
    Global(TABLE_INDEX * TABLE_BYTES + 4 * page)
}

// A page that has an entry.
fn has_entry(page: u64) -> bool
    ensures { result ≡ has_entry page }
{
    (FIRST_PAGE..PAGE_END).contains(&page)
}

// The page table entry of a page, for whoever asks: any number may be brought, and one that is no page with an entry gives none.
pub fn asked_entry(page: u64) -> Option<Global>
    ensures { AskedEntry page result }
{
    if has_entry(page) {
        return Some(entry_of(page));
    }
    None
}

// A segment that may be attached.
pub fn attachable_segment(segment: u64) -> bool
    ensures { result ≡ attachable segment }
{
    (FIRST_SEGMENT..=LAST_SEGMENT).contains(&segment)
}

// A page that may be mapped.
pub fn ordinary_page(page: u64) -> bool
    ensures { result ≡ ordinary_page page }
{
    (FIRST_PAGE..=LAST_PAGE).contains(&page)
}
