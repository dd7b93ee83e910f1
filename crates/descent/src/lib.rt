// The largest lags at a period and the least period, on a table of keys, 64 blocks at once.
#![tactic(auto)]

pub mod rules; // the rules that lags keep
pub mod least; // the least period
pub mod settle; // the largest lags at a period
mod column; // the rules of all blocks with one block
mod chain; // contradictions, and how long they last
