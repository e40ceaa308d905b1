//! The outside as traits: a source of bytes, a sink for bytes, each with a meaning that contracts speak of and
//! a count of its faults; objects in memory that fail when they are told to; and thin adapters over std.
#![tactic(auto)]

mod call_plan;
mod call_record;
mod dir_shelf;
mod file_error;
mod file_ops;
mod gate;
mod hold_gate;
mod mem_shelf;
mod mem_sink;
mod mem_source;
mod object_map;
mod one_fault;
mod open_files;
mod paths;
mod read_source;
mod record_shelf;
mod shelf;
mod shelf_source;
mod sink;
mod source;
mod torn_shelf;
mod trouble;
mod write_sink;
mod written_files;

pub use dir_shelf::DirShelf;
pub use gate::{Gate, OpenGate, PointKind};
pub use hold_gate::HoldGate;
pub use mem_shelf::MemShelf;
pub use mem_sink::MemSink;
pub use mem_source::MemSource;
pub use read_source::ReadSource;
pub use record_shelf::RecordShelf;
pub use shelf::Shelf;
pub use shelf_source::ShelfSource;
pub use sink::{Sink, write_all};
pub use source::Source;
pub use torn_shelf::TornShelf;
pub use trouble::Trouble;
pub use write_sink::WriteSink;

#[cfg(test)]
mod test_folder;
#[cfg(test)]
mod test_gates;
#[cfg(test)]
mod test_records;
#[cfg(test)]
mod test_short_reads;
#[cfg(test)]
mod test_torn;
#[cfg(test)]
mod tests;
