// The records of a case file, one after another, up to the first that is damaged.
use crate::ask::ask;
use crate::record::{BadRecord, split_record};
use records::out::Out;

// Asks all of them, and writes a line in place of a damaged one.
pub fn run(cases: &[u8]) {
    let mut out = Out::new();
    let mut rest = cases;
    while !rest.is_empty() {
        match split_record(rest) {
            Ok((asked, after)) => {
                ask(&mut out, &asked);
                rest = after;
            }
            Err(BadRecord) => {
                out.text(b"bad record\n");
                break;
            }
        }
    }
    out.finish();
}
