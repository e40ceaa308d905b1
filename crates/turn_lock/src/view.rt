// What a seat at the table knows, as data that exists in proofs alone. No value of these types is made.
use history::Entry;
use std::collections::LinkedList;

/// What stays the same for as long as the turns last: the first number, and what the history is judged by.
pub struct Home {
    pub first: u32,
    pub base: LinkedList<u64>,
}

/// Some numbers, and the entries that whoever has them has seen.
pub struct Known {
    pub numbers: LinkedList<u32>,
    pub seen: LinkedList<Entry>,
}

/// A spent seat has no home, and a note no number. A pass has its own number first, and then the joined ones.
pub struct View {
    pub home: Option<Home>,
    pub known: Known,
    /// What two passes knew before the join that made them one.
    pub old: LinkedList<Known>,
    /// Counted from 0 and without an end, unlike the word.
    pub ticket: Option<u64>,
    pub inside: bool,
    /// The opener's: the next number to be given out.
    pub next: Option<u64>,
}
