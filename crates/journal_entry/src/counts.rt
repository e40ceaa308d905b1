// The numbers of a commit.
ghost use Rattle.std.specs.Prelude.{◌≡◌};
ghost use Rattle.journal_entry.specs.Bounds.{are_counts};

const MAX_CHUNKS: u32 = 4_096;

const MAX_BYTES: u32 = 45_875_200;

/// Whether these are the numbers of a commit: of its chunks, 1 to 4,096; of their bytes, at least one for each chunk and
/// at most 45,875,200, which is 11,200 for each of 4,096; and of both those that it stored anew.
pub fn are_counts(chunks: u32, bytes: u32, fresh: u32, fresh_bytes: u32) -> bool
    ensures { result ≡ are_counts chunks bytes fresh fresh_bytes }
{
    1 <= chunks
        && chunks <= MAX_CHUNKS
        && chunks <= bytes
        && bytes <= MAX_BYTES
        && fresh <= chunks
        && fresh_bytes <= bytes
}
