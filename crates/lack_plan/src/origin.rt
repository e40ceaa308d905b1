// Where a chunk comes from.

/// Where a segment finds a chunk: it is new, or stands in a champion, or earlier in the segment.
#[derive(Clone, Copy, Debug, PartialEq, Eq)]
pub enum Origin {
    /// The chunk has to be stored.
    Fresh,
    /// The first champion that has it, counted from 0, and its first place there.
    Champion { which: u32, at: u32 },
    /// Its first place in the segment.
    Earlier(u32),
}
