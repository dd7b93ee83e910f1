// Whether the sheet on standard input is sound, or its first refusal.
#![tactic(auto)]

mod verdict; // the question, and its line

use records::input::{SHEET, space};

fn main() {
    let mut buf = space::<SHEET>();
    let n = io::read_full(0, &mut buf);
    verdict::tell(&buf[..n]);
}
