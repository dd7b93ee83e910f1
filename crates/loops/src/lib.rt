// Loops that prove a refusal: links, the loop check, what a loop rules out; the question check a loop.
#![tactic(auto)]

ghost use Rattle.sheet.specs.Core.{core_of};
ghost use Rattle.sheet.specs.Rules.{Told, said};
ghost use Rattle.loops.specs.Link.{ValidLoop};
ghost use Rattle.loops.specs.Reads.{LinkIs};
ghost use Rattle.loops.specs.Loop.{LoopRight};

use crate::link::Read;
use crate::read::Offer;
use paths::sound::check_sound;
use sheet::answer::Answer;
use sheet::frame::read_frame;
use sheet::opened::Formed;
use sheet::refusal::Refusal;

pub mod kind; // the kinds of links, by number
mod link; // a link as the words hold it
mod path; // the wires of a link of kind 2
mod read; // one link

// Whether the links after the first go on from it, come back to its a, and add up to less than 0 with it.
fn closes(offer: Offer<'_>, first: Read) -> bool
    requires { LinkIs offer.sheet.bytes.now offer.period offer.words.now 0 first }
    ensures { Told (ValidLoop (core_of offer.entry.sheet.bytes.now) offer.entry.period offer.entry.words.now) result }
{
    let mut last = first.b;
    let mut sum = first.k;
    let mut links = 1;
    let mut at = first.next;
    while at < offer.words.len() {
        let Some(link) = offer.link_at(at) else {
            return false;
        };
        if link.a != last {
            return false;
        }
        last = link.b;
        sum += link.k;
        links += 1;
        at = link.next;
    }
    last == first.a && sum < 32768 * links
}

// Whether the words are a valid loop of a formed sheet.
fn valid(sheet: Formed<'_>, period: u32, words: &[u16]) -> bool
    ensures { Told (ValidLoop (core_of sheet.entry.bytes.now) period words.now) result }
{
    if words.len() > 4224 {
        return false;
    }
    let offer = Offer {
        sheet,
        period,
        words,
    };
    match offer.link_at(0) {
        Some(first) => closes(offer, first),
        None => false,
    }
}

fn checked(sheet: &[u8], c: u32, words: &[u16]) -> Result<u32, Refusal>
    ensures { LoopRight sheet.now c words.now (said result) }
{
    let sound = check_sound(read_frame(sheet)?)?;
    if valid(sound.formed(), c, words) {
        Ok(0)
    } else {
        Err(Refusal::NoProof)
    }
}

// Check a loop: whether the words prove that no permitted lags of the sheet meet c.
pub fn check_loop(sheet: &[u8], c: u32, words: &[u16]) -> Answer
    ensures { LoopRight sheet.now c words.now result }
{
    Answer::of(checked(sheet, c, words))
}
