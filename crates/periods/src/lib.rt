// Periods and lags: the period as it stands, from the longest register-free paths; lags at a period and best period, from
// what the path table promises.
#![tactic(auto)]

ghost use Rattle.sheet.specs.Core.{registers_in, shape_of};
ghost use Rattle.sheet.specs.Rules.{said};
ghost use Rattle.paths.specs.Table.{Period};
ghost use Rattle.promises.specs.Questions.{PeriodRight, LagsRight, BestRight, lags_outcome};

use crate::lags::lags_by;
use paths::rise::longest_free;
use paths::sound::{Sound, check_sound};
use paths::wiring::Wiring;
use refusals::Aim;
use sheet::answer::Answer;
use sheet::frame::read_frame;
use sheet::refusal::Refusal;

mod lags; // lags at a period, and at the least one
mod quick; // the quick way to lags

// The period of a sound sheet.
fn sound_period(sheet: Sound<'_>) -> u32
    ensures { Period (shape_of sheet.entry.bytes.now) (registers_in sheet.entry.bytes.now) result }
{
    let formed = sheet.formed();
    longest_free(&Wiring::of(formed), &formed.delays())
}

fn standing(sheet: &[u8]) -> Result<u32, Refusal>
    ensures { PeriodRight sheet.now (said result) }
{
    let sound = check_sound(read_frame(sheet)?)?;
    Ok(sound_period(sound))
}

// The period as it stands: the largest delay of a register-free path.
pub fn period(sheet: &[u8]) -> Answer
    ensures { PeriodRight sheet.now result }
{
    Answer::of(standing(sheet))
}

// Lags at period c: the largest permitted lags that meet it, or a loop that proves that there are none.
pub fn lags_at(sheet: &[u8], c: u32, lags: &mut [i16], words: &mut [u16]) -> Answer
    ensures { LagsRight sheet.now c lags.old words.old (lags_outcome result lags.new words.new) }
{
    Answer::of(lags_by(sheet, Aim::At(c), lags, words))
}

// Best period: the least that permitted lags meet, as the value, and the largest lags that meet it.
pub fn best(sheet: &[u8], lags: &mut [i16], words: &mut [u16]) -> Answer
    ensures { BestRight sheet.now lags.old words.old (lags_outcome result lags.new words.new) }
{
    Answer::of(lags_by(sheet, Aim::Least, lags, words))
}
