//! Readers: a value, or none, with a position. Extraction of byte ranges through a reader.
#![tactic(auto)]

pub mod read_seek;
pub mod reader;
pub mod reader_fault;
pub mod seek_from;
pub mod slice_reader;
pub mod storage_value_io;
pub mod stored_ranges;
