// The delivery note of one sheet on standard input: its two periods, the lags that meet the best and every wire's registers.
#![tactic(auto)]

mod lines; // the note, line by line
mod note; // the questions that it needs, and the first refusal

use records::input::{SHEET, space};

fn main() {
    let mut buf = space::<SHEET>();
    let n = io::read_full(0, &mut buf);
    note::deliver(&buf[..n]);
}
