// What a question answers, and how a refusal is told.
ghost use Rattle.std.specs.Prelude.{◌≡◌};
ghost use Rattle.sheet.specs.Rules.{refusal_answer, said};

use crate::refusal::Refusal;

// 01: "Each answer has a number, a place and, where the question has one, a value." Numbers, since C has them so; inside, a
// refusal is a `Refusal`.
#[derive(Clone, Copy, Debug, PartialEq, Eq)]
pub struct Answer {
    pub number: u32,
    pub place: u32,
    pub value: u32,
}

// 01: "A refusal's value is 0, except the word count with 10 and 11."
impl From<Refusal> for Answer {
    ghost from_gives = { λ r a. a ≡ refusal_answer r };

    fn from(refusal: Refusal) -> Answer {
        let (number, place, value) = match refusal {
            Refusal::Short => (1, 0, 0),
            Refusal::Counts => (2, 0, 0),
            Refusal::Offsets => (3, 0, 0),
            Refusal::FirstList => (4, 0, 0),
            Refusal::SecondList => (4, 1, 0),
            Refusal::Block(block) => (5, block, 0),
            Refusal::Wire(wire) => (6, wire, 0),
            Refusal::Loop(block) => (7, block, 0),
            Refusal::Lag(block) => (8, block, 0),
            Refusal::Registers(wire) => (9, wire, 0),
            Refusal::NoLags(words) => (10, 0, words),
            Refusal::NoLagsAt(words) => (11, 0, words),
            Refusal::NoProof => (12, 0, 0),
        };
        Answer {
            number,
            place,
            value,
        }
    }
}

impl Answer {
    // 01: "With answer 0 the value is the period in the two questions that give one, else 0."
    pub fn of(outcome: Result<u32, Refusal>) -> Answer
        ensures { result ≡ said outcome }
    {
        match outcome {
            Ok(value) => Answer {
                number: 0,
                place: 0,
                value,
            },
            Err(refusal) => Answer::from(refusal),
        }
    }
}
