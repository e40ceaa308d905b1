//! The values that every layer shares: names and pieces of chunks, ids and places of stored objects,
//! stream names, and the numbers of the profiles. All are plain values, copied without memory.
#![tactic(auto)]

mod ended;
mod fields;
mod hook;
mod ids;
mod limits;
mod memory;
mod name;
mod object;
mod profile;
mod short_text;
mod stream_name;

pub use ended::Ended;
pub use fields::{read_name, read_number, write_name, write_number};
pub use hook::is_hook;
pub use ids::{ContainerId, ManifestId, Place, Standing};
pub use limits::{MAX_CHAMPIONS, MAX_CHUNK_LEN, MAX_CHUNKS, PIECE_LEN};
pub use memory::Memory;
pub use name::{Name, Piece};
pub use object::{Object, object_name};
pub use profile::{Numbers, Profile};
pub use short_text::ShortText;
pub use stream_name::{StreamName, is_stream_name};

#[cfg(test)]
mod tests;
