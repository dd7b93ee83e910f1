// The questions: for each a function that asks it and writes its lines, and an arm in `ask`.
use crate::record::{Question, Record};
use crate::solve::{best, lags_at};
use records::answers::value_of;
use records::given::{blocks, given};
use records::lent::{kept, marked};
use records::out::Out;

// After the head the table where there is one, and whether the rest of both lists was kept.
// Here and in `solve` output and record stay two arguments: no fact joins them.
fn table(out: &mut Out, asked: &Record) {
    let mut registers = marked::<u32>();
    let mut delays = marked::<u32>();
    let answer = tables::path_table(
        asked.sheet,
        &mut registers[..asked.a],
        &mut delays[..asked.b],
    );
    out.head(asked.question as u32, answer);
    let mut r = 0;
    let mut d = 0;
    if value_of(answer).is_ok() {
        let n = blocks(asked.sheet);
        r = (n * n).min(asked.a);
        d = (n * n).min(asked.b);
        out.list(b"registers", &registers[..r]);
        out.list(b"delays", &delays[..d]);
    }
    out.kept(kept(&registers, r) && kept(&delays, d));
}

// After the head the moved sheet where there is one, and whether the rest was kept. A moved sheet takes as many bytes as the sheet.
fn move_by(out: &mut Out, asked: &Record) {
    let lags = given::<i16>(asked.more);
    let mut moved = marked::<u8>();
    let answer = moves::move_by(asked.sheet, &lags[..asked.a], &mut moved[..asked.b]);
    out.head(asked.question as u32, answer);
    let mut count = 0;
    if value_of(answer).is_ok() {
        count = asked.sheet.len().min(asked.b);
        out.list(b"moved", &moved[..count]);
    }
    out.kept(kept(&moved, count));
}

// The head alone, which has the answer to a loop check.
fn check_loop(out: &mut Out, asked: &Record) {
    let words = given::<u16>(asked.more);
    let answer = loops::check_loop(asked.sheet, asked.period, &words[..asked.a]);
    out.head(asked.question as u32, answer);
}

// Asks the question of a record, and writes what it answers and leaves.
pub fn ask(out: &mut Out, asked: &Record) {
    let code = asked.question as u32;
    match asked.question {
        Question::Check => out.head(code, paths::check(asked.sheet)),
        Question::Period => out.head(code, periods::period(asked.sheet)),
        Question::Table => table(out, asked),
        Question::Move => move_by(out, asked),
        Question::Lags => lags_at(out, asked),
        Question::Best => best(out, asked),
        Question::Loop => check_loop(out, asked),
    }
}
