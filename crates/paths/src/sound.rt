// Refusals 5, 6 and 7 of a sheet that 1, 2 and 3 pass.
ghost use Rattle.std.specs.Prelude.{◌≡◌, IfOk};
ghost use Rattle.sheet.specs.Core.{blocks_in, wires_in};
ghost use Rattle.sheet.specs.Rules.{Staged};
ghost use Rattle.paths.specs.Questions.{SoundSheet, loop_rules, sound_rules};

use crate::loops::first_loop;
use crate::rise::rise;
use crate::wiring::Wiring;
use sheet::entries::check_entries;
use sheet::opened::{Formed, Opened};
use sheet::refusal::Refusal;

// A sheet that 7 passes as well: no loop is register-free.
#[derive(Clone, Copy)]
pub struct Sound<'a> {
    pub bytes: &'a [u8],
    pub n: usize,
    pub m: usize,
    pub ghost sound: { SoundSheet bytes.now },
    pub ghost n_is: { n ≡ blocks_in bytes.now },
    pub ghost m_is: { m ≡ wires_in bytes.now },
}

impl<'a> Sound<'a> {
    // The sheet without what 7 says of it.
    pub fn formed(self) -> Formed<'a>
        ensures { (result.bytes.now ≡ self.entry.bytes.now) × (result.n ≡ self.entry.n) × (result.m ≡ self.entry.m) }
    {
        Formed {
            bytes: self.bytes,
            n: self.n,
            m: self.m,
        }
    }
}

// With delays of 1, heights that settle show that there is no loop, and one above n can stop the sweeps: it is on the way
// round a loop. Only where they do not settle is the first loop searched for.
fn check_loops(sheet: Formed<'_>) -> Result<(), Refusal>
    ensures { Staged (loop_rules sheet.entry.bytes.now) result }
{
    let wiring = Wiring::of(sheet);
    let ones = [1; 64];
    let mut heights = [0; 64];
    if rise(&wiring, &ones, wiring.n as u32, &mut heights) {
        return Ok(());
    }
    match first_loop(&wiring) {
        Some(block) => Err(Refusal::Loop(block as u32)),
        None => Ok(()),
    }
}

pub fn check_sound(sheet: Opened<'_>) -> Result<Sound<'_>, Refusal>
    ensures staged { Staged (sound_rules sheet.entry.bytes.now) result }
    ensures same { IfOk result (λ s. s.bytes.now ≡ sheet.entry.bytes.now) }
{
    let formed = check_entries(sheet)?;
    check_loops(formed)?;
    Ok(Sound {
        bytes: formed.bytes,
        n: formed.n,
        m: formed.m,
    })
}
