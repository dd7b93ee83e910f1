// What a program that asks a case file reads, lends and writes: second/README.md has both formats.
#![tactic(auto)]

pub mod input; // room for standard input
pub mod answers; // an answer as a value or a refusal
pub mod out; // text for standard output, gathered in a buffer
pub mod lent; // what a lent list holds before a call, and whether it still does
pub mod given; // the lags or words that a record gives
