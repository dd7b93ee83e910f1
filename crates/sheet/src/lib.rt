// Bytes to core: a sheet's header, blocks and wires, its lags, and the answers that refuse it.
#![tactic(auto)]

pub mod refusal; // the refusals
pub mod answer; // what a question answers
pub mod bytes; // numbers in a slice of bytes
pub mod lag; // lags and their excess numbers
pub mod opened; // a sheet at the stages of a question
pub mod frame; // the header: refusals 1, 2 and 3
pub mod entry; // what is told of a bad entry
pub mod block; // one block entry
pub mod wire; // one wire entry
pub mod entries; // the first bad block and wire: refusals 5 and 6
pub mod load; // a formed sheet's numbers
