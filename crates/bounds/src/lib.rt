// A sheet's rules as one table of keys: its path table for all start blocks at once, with the wires' ceilings folded in.
#![tactic(auto)]

ghost use Rattle.bounds.specs.Ruled.{Ruled};

use keys::ordered::Ordered;
use keys::{fill_keys, fold_ceilings, in_turn};
use paths::sound::Sound;
use paths::wiring::Wiring;
use sheet::load::Limits;

// The rules of a sound sheet: its keys, and both limits of each block. Wires are tried in the order of the heights of
// their ends: the table then settles in few sweeps. The keys are lent: given by value, they stand on the stack twice.
pub fn load_rules(sheet: Sound<'_>, keys: &mut [u32; 4096]) -> Limits
    ensures { Ruled sheet.entry.bytes.now keys.new result.lower result.upper }
{
    let formed = sheet.formed();
    let wiring = Wiring::of(formed);
    let delays = formed.delays();
    let mut turns = [0; 256];
    in_turn(&wiring, &mut turns);
    let ordered = Ordered {
        wiring: &wiring,
        delays: &delays,
        turns: &turns,
    };
    fill_keys(&ordered, keys);
    fold_ceilings(&wiring, keys);
    formed.limits()
}
