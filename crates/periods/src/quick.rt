// The quick way to lags: the sheet's rules as one table of keys, and a descent from the upper limits.
ghost use Rattle.periods.specs.Quick.{Sought, Quick};

use bounds::load_rules;
use descent::least::least;
use descent::rules::Rules;
use descent::settle::Descent;
use paths::sound::Sound;
use refusals::Aim;
use sheet::load::Limits;

// Lags as excess numbers, with the value of their answer.
#[derive(Clone, Copy)]
pub struct Found {
    pub value: u32,
    pub lags: [u32; 64],
}

// The longest period that the table of keys has rules for. No path without a register takes longer.
const LONGEST: u32 = 1048575;

// From the upper limits down to the lags that are asked for.
fn sought(rules: &Rules, aim: Aim) -> Option<Found>
    ensures { Sought rules.now aim result }
{
    let mut descent = Descent::start(rules);
    let value = match aim {
        Aim::At(c) => {
            descent.settle(rules, c.min(LONGEST)).ok()?;
            0
        }
        Aim::Least => {
            descent.settle(rules, LONGEST).ok()?;
            least(rules, &mut descent)
        }
    };
    let lags = descent.lags;
    Some(Found { value, lags })
}

// The largest lags of a sound sheet at a period, or at the least. Never inlined: its table is off the stack where `refuse` runs.
#[inline(never)]
pub fn quick(sheet: Sound<'_>, aim: Aim) -> Option<Found>
    ensures { Quick sheet.entry.bytes.now aim result }
{
    let mut keys = [0; 4096];
    let Limits { lower, upper } = load_rules(sheet, &mut keys);
    let rules = Rules {
        keys: &keys,
        lower: &lower,
        upper: &upper,
    };
    sought(&rules, aim)
}
