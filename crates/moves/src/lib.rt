// Lags and moves: permitted lags, the moved sheet, what moving leaves unchanged; the question move.
#![tactic(auto)]

ghost use Rattle.sheet.specs.Rules.{said};
ghost use Rattle.moves.specs.Move.{MoveRight, move_outcome};

use crate::lags::{Asked, check_lags};
use paths::room::check_room;
use paths::sound::check_sound;
use sheet::answer::Answer;
use sheet::frame::read_frame;
use sheet::refusal::Refusal;

mod lags; // refusals 8 and 9
mod write; // the moved sheet is written

fn moved_by(sheet: &[u8], lags: &[i16], moved: &mut [u8]) -> Result<u32, Refusal>
    ensures { MoveRight sheet.now lags.now moved.old (move_outcome (said result) moved.new) }
{
    let opened = read_frame(sheet)?;
    check_room(lags.len(), opened.n, moved.len(), sheet.len())?;
    let sound = check_sound(opened)?;
    let permitted = check_lags(Asked {
        sheet: sound.formed(),
        lags,
    })?;
    permitted.write(moved);
    Ok(0)
}

// The sheet moved by a list of lags, in the first bytes of a lent list.
pub fn move_by(sheet: &[u8], lags: &[i16], moved: &mut [u8]) -> Answer
    ensures { MoveRight sheet.now lags.now moved.old (move_outcome result moved.new) }
{
    Answer::of(moved_by(sheet, lags, moved))
}
