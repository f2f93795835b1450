// src/lib.rs of the crate: the constants, the element `Node`, and what document 01 adds to every call: the limits, the refusals and what a character is.
#![tactic(auto)]

ghost use Rattle.std.specs.Prelude.{◌≡◌};
ghost use Rattle.node.specs.Element.{offset, top, vacant_pair};
ghost use Rattle.node.specs.Limits.{arrays_over, query_over, build_over, key_over};
ghost use Rattle.node.specs.Character.{is_character, character_refusal};
ghost use Rattle.node.specs.Refusals.{number, carried};

/// Every bit but the top one.
pub const OFFSET_MASK: u32 = 0x7fff_ffff;

/// No element.
pub const INVALID_IDX: u32 = 0xffff_ffff;

/// The entry of a character without a code.
pub const INVALID_CODE: u32 = 0xffff_ffff;

/// The greatest value of a record.
pub const MAX_VALUE: u32 = 0x7fff_ffff;

/// The code of the end marker.
pub const END_CODE: u32 = 0;

/// The end marker: no key and no query has it.
pub const END_MARKER: u32 = 0xffff;

/// The lowest number with its top bit set: `!OFFSET_MASK`.
pub const TOP_BIT: u32 = 0x8000_0000;

/// The most records of a build. The seven limits are document 01's, 'Limits and refusals'.
pub const MAX_RECORDS: usize = 65_535;

/// The most characters of a key.
pub const MAX_KEY: usize = 1_024;

/// The most characters of all keys.
pub const MAX_KEYS: usize = 262_144;

/// The most characters of a query.
pub const MAX_QUERY: usize = 65_535;

/// The most elements.
pub const MAX_ELEMS: usize = 16_777_216;

/// The most places of a table.
pub const MAX_TABLE: usize = 1_114_112;

/// The most tail bytes.
pub const MAX_TAILS: usize = 16_777_216;

/// Document 01's table of refusals, in its order.
#[derive(Clone, Copy, Debug, PartialEq, Eq)]
pub enum Refusal {
    /// 10: ends and values differ in number, ends fall, or the last end is not the run's length
    Uneven,
    /// 12: a limit is passed
    Limit,
    /// 11: not a character
    NoCharacter,
    /// 1: a value above MAX_VALUE
    ValueScale,
    /// 2: END_MARKER in a key or a query
    EndMarker,
    /// 3: no records
    NoRecords,
    /// 13: some key is greater than the next
    Unsorted,
    /// 4: the first key is empty
    EmptyKey,
    /// 5: two equal keys
    Duplicate,
    /// 9: table room or work space of a build
    BuildRoom,
    /// 6: more elements than there is room for
    ElementRoom,
    /// 7: a suffix over 255 characters
    LongSuffix,
    /// 8: tails do not fit
    TailRoom,
    /// 14: bytes end before the layout does
    Truncated,
    /// 15: room of a load
    LoadRoom,
    /// 16: a soundness rule is broken, with the lowest such rule's number
    Unsound(u32),
    /// 20: buffer below io_bytes
    BufferRoom,
    /// 22: the walk would read outside what is lent
    Outside,
    /// 23: more matches than there is room for
    MatchRoom,
}

impl Refusal {
    /// The number in document 01's table.
    // A method, and no `From`, since the number leaves out the rule.
    pub fn number(self) -> u32
        ensures { result ≡ number self }
    {
        match self {
            Refusal::Uneven => 10,
            Refusal::Limit => 12,
            Refusal::NoCharacter => 11,
            Refusal::ValueScale => 1,
            Refusal::EndMarker => 2,
            Refusal::NoRecords => 3,
            Refusal::Unsorted => 13,
            Refusal::EmptyKey => 4,
            Refusal::Duplicate => 5,
            Refusal::BuildRoom => 9,
            Refusal::ElementRoom => 6,
            Refusal::LongSuffix => 7,
            Refusal::TailRoom => 8,
            Refusal::Truncated => 14,
            Refusal::LoadRoom => 15,
            Refusal::Unsound(_) => 16,
            Refusal::BufferRoom => 20,
            Refusal::Outside => 22,
            Refusal::MatchRoom => 23,
        }
    }

    /// The rule that it carries: only 16 carries one.
    pub fn rule(self) -> Option<u32>
        ensures { result ≡ carried self }
    {
        match self {
            Refusal::Unsound(rule) => Some(rule),
            _ => None,
        }
    }
}

/// A number without its top bit: `x & OFFSET_MASK`.
#[tactic(auto, unfolding(crate::specs::Element::offset))]
pub fn masked(x: u32) -> u32
    ensures { result ≡ offset x }
{
    x % TOP_BIT
}

/// Whether the top bit is set: `x & !OFFSET_MASK != 0`.
#[tactic(auto, unfolding(crate::specs::Element::top))]
pub fn has_top(x: u32) -> bool
    ensures { result ≡ top x }
{
    TOP_BIT <= x
}

/// An element: its two numbers.
#[derive(Clone, Copy, Debug, Default, PartialEq, Eq)]
pub struct Node {
    pub base: u32,
    pub check: u32,
}

// `get_base` and `get_check`, `is_leaf` and `has_leaf` stay pairs: each is one call under its Rust name, and a field as a parameter is no plainer.
impl Node {
    /// `base` without its top bit.
    pub fn get_base(self) -> u32
        ensures { result ≡ offset self.base }
    {
        masked(self.base)
    }

    /// `check` without its top bit: the parent.
    pub fn get_check(self) -> u32
        ensures { result ≡ offset self.check }
    {
        masked(self.check)
    }

    /// The top bit of `base`.
    pub fn is_leaf(self) -> bool
        ensures { result ≡ top self.base }
    {
        has_top(self.base)
    }

    /// The top bit of `check`: is there a child by code 0?
    pub fn has_leaf(self) -> bool
        ensures { result ≡ top self.check }
    {
        has_top(self.check)
    }

    /// Are both numbers `OFFSET_MASK`?
    #[tactic(auto, unfolding(crate::specs::Element::vacant_pair))]
    pub fn is_vacant(self) -> bool
        ensures { result ≡ vacant_pair self.base self.check }
    {
        self.base == OFFSET_MASK && self.check == OFFSET_MASK
    }

    /// How many bytes an element takes.
    pub fn io_bytes() -> usize
        ensures { result ≡ 8 }
    {
        8
    }
}

/// The lengths of what a query, a writer or a count is lent: elements, table and tail bytes.
#[derive(Clone, Copy, Debug, PartialEq, Eq)]
pub struct Sizes {
    pub elems: usize,
    pub table: usize,
    pub tails: usize,
}

impl Sizes {
    /// Does one of them pass its limit?
    #[tactic(auto, unfolding(crate::specs::Limits::arrays_over))]
    pub fn arrays_over(self) -> bool
        ensures { result ≡ arrays_over self.elems self.table self.tails }
    {
        MAX_ELEMS < self.elems || MAX_TABLE < self.table || MAX_TAILS < self.tails
    }

    /// Does one of them or the query's length pass its limit?
    #[tactic(auto, unfolding(crate::specs::Limits::query_over))]
    pub fn query_over(self, query: usize) -> bool
        ensures { result ≡ query_over self.elems self.table self.tails query }
    {
        self.arrays_over() || MAX_QUERY < query
    }
}

/// Does the number of records or of all keys' characters pass its limit?
#[tactic(auto, unfolding(crate::specs::Limits::build_over))]
pub fn build_over(records: usize, keys: usize) -> bool
    ensures { result ≡ build_over records keys }
{
    MAX_RECORDS < records || MAX_KEYS < keys
}

/// Does a key's length pass its limit?
#[tactic(auto, unfolding(crate::specs::Limits::key_over))]
pub fn key_over(key: usize) -> bool
    ensures { result ≡ key_over key }
{
    MAX_KEY < key
}

/// Is this number a character: up to 10FFFF, and not from D800 to DFFF?
#[tactic(auto, unfolding(crate::specs::Character::is_character))]
pub fn is_character(c: u32) -> bool
    ensures { result ≡ is_character c }
{
    char::from_u32(c).is_some()
}

/// The refusal that a number of a query meets by itself: 11 or 2.
#[tactic(auto, unfolding(crate::specs::Character::character_refusal))]
pub fn character_refusal(c: u32) -> Option<Refusal>
    ensures { result ≡ character_refusal c }
{
    if !is_character(c) {
        return Some(Refusal::NoCharacter);
    }
    if c == END_MARKER {
        return Some(Refusal::EndMarker);
    }
    None
}
