//! Devices that bytes come from and go to: shelves that hold bytes under names, and sinks.
#![tactic(auto)]

mod calls;
mod content;
mod document;
mod file_shelf;
mod memory_shelf;
mod memory_sink;
mod shelf;
mod std_sink;

pub use document::{ReadRefusal, WriteFault, read_document, write_all_of};
pub use file_shelf::FileShelf;
pub use memory_shelf::MemoryShelf;
pub use memory_sink::MemorySink;
pub use shelf::{Failed, Shelf, Sink};
pub use std_sink::StdSink;
