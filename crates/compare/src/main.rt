// Asks the library every question of a case file on standard input and writes the answers: second/README.md has both formats.
#![tactic(auto)]

mod record; // one record: its question, its sheet and its lists
mod solve; // the two lag questions, and whether a loop proves their refusal
mod ask; // each question: what is asked and what is written
mod cases; // the records of a case file, one after another

use records::input::{CASES, space};

fn main() {
    let mut buf = space::<CASES>();
    let n = io::read_full(0, &mut buf);
    cases::run(&buf[..n]);
}
