// The two lag questions: the quick way to lags, and the loop of a refusal where it finds none.
ghost use Rattle.std.specs.Prelude.{◌+◌, ◌*◌, ◌≤◌, length};
ghost use Rattle.sheet.specs.Rules.{First, said};
ghost use Rattle.promises.specs.Questions.{lags_outcome};
ghost use Rattle.refusals.specs.Solving.{last_of};
ghost use Rattle.periods.specs.Quick.{LagsBy};

use crate::quick::quick;
use paths::room::check_room;
use paths::sound::{Sound, check_sound};
use refusals::load::write_lags;
use refusals::{Aim, refuse};
use sheet::frame::read_frame;
use sheet::refusal::Refusal;

// A lag question on a sound sheet. Lags and words stay two lists, each with its room in a clause, here and in `refuse`: they are
// lent on one by one, so that a struct of both would be taken apart again.
fn sound_lags(
    sheet: Sound<'_>,
    aim: Aim,
    lags: &mut [i16],
    words: &mut [u16],
) -> Result<u32, Refusal>
    requires { (sheet.n ≤ length lags.old) × (sheet.n * (sheet.n + 2) ≤ length words.old) }
    ensures { First (last_of sheet.entry.bytes.now aim lags.old words.old) (lags_outcome (said result) lags.new words.new) }
{
    match quick(sheet, aim) {
        Some(found) => {
            write_lags(sheet.n, &found.lags, lags);
            Ok(found.value)
        }
        None => refuse(sheet, aim, lags, words),
    }
}

// A lag question: n lags, then n(n + 2) words.
pub fn lags_by(sheet: &[u8], aim: Aim, lags: &mut [i16], words: &mut [u16]) -> Result<u32, Refusal>
    ensures { LagsBy sheet.now aim lags.old words.old (lags_outcome (said result) lags.new words.new) }
{
    let opened = read_frame(sheet)?;
    let n = opened.n;
    check_room(lags.len(), n, words.len(), n * (n + 2))?;
    let sound = check_sound(opened)?;
    sound_lags(sound, aim, lags, words)
}
