// The types that the definitions in specs/ and the code share.
#![tactic(auto)]

// A geometry: bytes of a word, bytes of a page, number of pages.
#[derive(Clone, Copy, PartialEq, Eq)]
pub struct Geo {
    pub word: usize,
    pub page: usize,
    pub pages: usize,
}

// What the two marks of a page say.
#[derive(Clone, Copy, PartialEq, Eq)]
pub enum PageState {
    Open,
    PartialOpen,
    Closed,
    Corrupted,
}

// What an item is.
#[derive(Clone, Copy, PartialEq, Eq)]
pub enum Kind {
    Present,
    Removed,
    Damaged,
}

// Where a walk stands: its first page, the page it reads, the place it reads next.
#[derive(Clone, Copy, PartialEq, Eq)]
pub struct Cursor {
    pub first: usize,
    pub page: usize,
    pub place: usize,
}

// What a call answers. A value has a place and a length, an item a key before them.
// One enum for values and refusals: docs/RULES.md has one table for all.
#[derive(Clone, Copy, PartialEq, Eq)]
pub enum Answer {
    Done,
    Value(usize, usize),
    None,
    Item(u32, usize, usize),
    EndRangeNotAtPageBoundary,
    RangeTooSmall,
    PagesTooSmall,
    Geometry,
    CacheSize,
    ItemTooBig,
    FullStorage,
    Corrupted,
}
