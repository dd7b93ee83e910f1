// The least period: halving between a floor and the period that the lags at rest reach.
ghost use Rattle.std.specs.Prelude.{◌≡◌, ℕ, ◌<◌, ◌≤◌};
ghost use Rattle.descent.specs.State.{AtRest};
ghost use Rattle.descent.specs.Least.{LeastRest, Lags, Resting, Reach, Scaled, Near, Nearing};

use crate::rules::{NoLags, Rules};
use crate::settle::Descent;

// The lags, one step up, from 31,768 on and in periods.
fn scale(lags: &[u32; 64]) -> [u32; 64]
    requires { Lags lags.now }
    ensures { Scaled lags.now result 64 }
{
    let mut scaled = [0; 64];
    for u in 0..64 {
        scaled[u] = (lags[u] - 31768) * 1048576 + 1048576;
    }
    scaled
}

// The least of `best` and what the rules of all blocks with v leave.
fn near(keys: &[u32; 4096], v: usize, plus: u32, scaled: &[u32; 64], best: u32) -> u32
    requires { Nearing keys.now scaled.now v plus }
    ensures { Near keys.now scaled.now v plus best 64 result }
{
    let mut least = best;
    for u in 0..64 {
        least = least.min(keys[v * 64 + u] + plus - scaled[u]);
    }
    least
}

// The least period at which lags at rest keep all rules.
fn reach(keys: &[u32; 4096], lags: &[u32; 64]) -> u32
    requires { Resting keys.now lags.now }
    ensures { Reach keys.now lags.now result }
{
    let scaled = scale(lags);
    let mut least = 1048575;
    for v in 0..64 {
        let plus = (lags[v] - 31768) * 1048576 + 1048575;
        least = near(keys, v, plus, &scaled, least);
    }
    1048575 - least
}

// How far below the period reached the next trial is: half way to the floor, and next to it after two that failed.
fn back(gap: u32, failed: u32) -> u32
    ensures { result ≤ gap }
{
    if failed < 2 { gap / 2 } else { 0 }
}

// From lags at rest to the least period that has lags, and the largest lags at it.
pub fn least(rules: &Rules, descent: &mut Descent) -> u32
    ghost c: { ℕ }
    requires rest { AtRest rules.now c descent.old.lags }
    requires short { c < 1048576 }
    ensures { LeastRest rules.now c result descent.new.lags }
{
    let mut high = reach(rules.keys, &descent.lags);
    let mut low = 0;
    let mut failed = 0;
    while low < high {
        let middle = high - 1 - back(high - 1 - low, failed);
        let mut next = *descent;
        match next.settle(rules, middle) {
            Ok(()) => {
                *descent = next;
                high = reach(rules.keys, &descent.lags);
                failed = 0;
            }
            Err(NoLags { below }) => {
                low = below;
                failed += 1;
            }
        }
    }
    high
}
