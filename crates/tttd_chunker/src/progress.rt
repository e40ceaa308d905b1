// What a chunker remembers of the bytes that it has looked at.

// What is known of the positions up to one: none meets the main test. The sum is of the 48 bytes before it.
#[derive(Clone, Copy)]
pub struct Scan {
    pub at: usize,
    pub sum: u64,
    // The last position that meets the backup test.
    pub backup: Option<usize>,
}

#[derive(Clone, Copy)]
pub enum Progress {
    // The bytes were fewer than the lower threshold.
    Fresh,
    Scanned(Scan),
    // The length of the first chunk.
    Cut(usize),
}
