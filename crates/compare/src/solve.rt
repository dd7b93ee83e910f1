// The two lag questions: the lines with their answers, and whether the loop that comes with 10 or 11 proves it.
use crate::record::Record;
use records::answers::value_of;
use records::given::blocks;
use records::lent::{LONGEST, kept, marked};
use records::out::Out;
use sheet::answer::Answer;

// The two lists that a lag question is lent.
#[derive(Drop)]
struct Loan {
    lags: [i16; LONGEST],
    words: [u16; LONGEST],
}

impl Loan {
    fn new() -> Self {
        Loan {
            lags: marked(),
            words: marked(),
        }
    }

    // Whether the lags and the words from these on are what they were before the call.
    fn kept(&self, lags: usize, words: usize) -> bool {
        kept(&self.lags, lags) && kept(&self.words, words)
    }
}

// Whether the loop check says yes at this period.
fn accepted(sheet: &[u8], period: u32, words: &[u16]) -> bool {
    value_of(loops::check_loop(sheet, period, words)).is_ok()
}

// With 11 at the period asked for. With 10 at the least and the largest: at the largest no path is slow enough.
fn proved(sheet: &[u8], answer: Answer, period: u32, words: &[u16]) -> bool {
    if answer.number == 11 {
        accepted(sheet, period, words)
    } else {
        accepted(sheet, 0, words) && accepted(sheet, u32::MAX, words)
    }
}

// The lines of an answer with a loop: its word count is not written, since which loop is free.
fn loop_lines(out: &mut Out, asked: &Record, period: u32, answer: Answer, loan: &Loan) {
    let count = answer.value as usize;
    out.short_head(asked.question as u32, answer);
    let yes = match loan.words.get(..count) {
        Some(words) => proved(asked.sheet, answer, period, words),
        None => false,
    };
    out.text(if yes { b"loop yes\n" } else { b"loop no\n" });
    out.kept(loan.kept(0, count));
}

// The lines of any other answer: with 0 its n lags.
fn lag_lines(out: &mut Out, asked: &Record, answer: Answer, loan: &Loan) {
    out.head(asked.question as u32, answer);
    let mut n = 0;
    if value_of(answer).is_ok() {
        n = blocks(asked.sheet).min(asked.a);
        out.list(b"lags", &loan.lags[..n]);
    }
    out.kept(loan.kept(n, 0));
}

// Asks for lags by `question`, with the period that a loop with 11 is judged at.
fn lags_by<F: FnOnce(&mut [i16], &mut [u16]) -> Answer>(
    out: &mut Out,
    asked: &Record,
    period: u32,
    question: F,
)
    requires { F.IsAlwaysCallable question }
{
    let mut loan = Loan::new();
    let answer = question(&mut loan.lags[..asked.a], &mut loan.words[..asked.b]);
    // Numbers as C has them: what is asked here are the public questions.
    if matches!(answer.number, 10 | 11) {
        loop_lines(out, asked, period, answer, &loan);
    } else {
        lag_lines(out, asked, answer, &loan);
    }
}

pub fn lags_at(out: &mut Out, asked: &Record) {
    lags_by(out, asked, asked.period, |lags, words| {
        periods::lags_at(asked.sheet, asked.period, lags, words)
    });
}

pub fn best(out: &mut Out, asked: &Record) {
    lags_by(out, asked, 0, |lags, words| {
        periods::best(asked.sheet, lags, words)
    });
}
