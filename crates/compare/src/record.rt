// The records of a case file: which question each asks, what of and what it lends. second/README.md has the format.
ghost use Rattle.std.specs.Prelude.{◌≡◌, ◌+◌, ◌≤◌, ◌<◌, IfErr, IfOk, drop, length, take};
ghost use Rattle.sheet.specs.Bytes.{u16_at, u32_at};
ghost use Rattle.records.specs.declared.lent.TheConstants.{LONGEST};
ghost use Rattle.compare.specs.Record.{Decodes, Whole, after_sheet, code_of, more_on, sheet_on};

use records::lent::LONGEST;
use sheet::bytes::{u16_at, u32_at};

// The seven questions, by the codes that a record and the line of an answer have for them.
#[derive(Clone, Copy)]
pub enum Question {
    Check = 1,
    Period = 2,
    Table = 3,
    Move = 4,
    Lags = 5,
    Best = 6,
    Loop = 7,
}

// A record that is cut off, has a code of no question or lists longer than any record lends or gives.
#[derive(Clone, Copy)]
pub struct BadRecord;

impl TryFrom<u32> for Question {
    type Error = BadRecord;

    ghost try_from_gives = { Decodes };

    fn try_from(code: u32) -> Result<Self, BadRecord> {
        match code {
            1 => Ok(Question::Check),
            2 => Ok(Question::Period),
            3 => Ok(Question::Table),
            4 => Ok(Question::Move),
            5 => Ok(Question::Lags),
            6 => Ok(Question::Best),
            7 => Ok(Question::Loop),
            _ => Err(BadRecord),
        }
    }
}

// What a record asks: its question, the sheet, the bytes after it, the lengths a and b of the lists, and the period.
#[derive(Clone, Copy)]
pub struct Record<'a> {
    pub question: Question,
    pub sheet: &'a [u8],
    pub more: &'a [u8],
    pub a: usize,
    pub b: usize,
    pub period: u32,
    ghost lists: { (a ≤ LONGEST) × (b ≤ LONGEST) },
}

// The bytes after the sheet: a move has its a lags there and a loop check its a words.
fn after(question: Question, a: usize) -> usize
    requires { a ≤ LONGEST }
    ensures { result ≡ after_sheet (code_of question) a }
{
    match question {
        Question::Move | Question::Loop => 2 * a,
        _ => 0,
    }
}

// The record at the start of some bytes, and the bytes after it. Byte 1 is 0, so that the first u16 is the code.
pub fn split_record(bytes: &[u8]) -> Result<(Record<'_>, &[u8]), BadRecord>
    ensures whole { IfOk result (λ _. Whole bytes.now) }
    ensures numbers { IfOk result (λ r. (code_of r.0.question ≡ u16_at bytes.now 0) × (r.0.a ≡ u16_at bytes.now 4) × (r.0.b ≡ u16_at bytes.now 6) × (r.0.period ≡ u32_at bytes.now 8)) }
    ensures sheet { IfOk result (λ r. r.0.sheet.now ≡ take (u16_at bytes.now 2) (sheet_on bytes.now)) }
    ensures more { IfOk result (λ r. r.0.more.now ≡ take (after_sheet (u16_at bytes.now 0) (u16_at bytes.now 4)) (more_on bytes.now)) }
    ensures rest { IfOk result (λ r. r.1.now ≡ drop (after_sheet (u16_at bytes.now 0) (u16_at bytes.now 4)) (more_on bytes.now)) }
    ensures shorter { IfOk result (λ r. length r.1.now < length bytes.now) }
    ensures damaged { IfErr result (λ _. Whole bytes.now → ⊥) }
{
    let (_, rest) = bytes.split_at_checked(12).ok_or(BadRecord)?;
    let question = Question::try_from(u16_at(bytes, 0))?;
    let a = u16_at(bytes, 4) as usize;
    let b = u16_at(bytes, 6) as usize;
    if a > LONGEST || b > LONGEST {
        return Err(BadRecord);
    }
    let length = u16_at(bytes, 2) as usize;
    let (sheet, rest) = rest.split_at_checked(length).ok_or(BadRecord)?;
    let (more, rest) = rest.split_at_checked(after(question, a)).ok_or(BadRecord)?;
    let record = Record {
        question,
        sheet,
        more,
        a,
        b,
        period: u32_at(bytes, 8),
    };
    Ok((record, rest))
}
