// The lanes of the table: the 64 start blocks of one end block stand together and are treated alike.
// These loops have the form that becomes vectors: no early return, and a store in every turn.
ghost use Rattle.std.specs.Prelude.{◌<◌, ◌≤◌};
ghost use Rattle.paths.specs.Lists.{Delays};
ghost use Rattle.keys.specs.Filling.{Blank, Within, Lanes};

// The key of a pair that no path joins: above those of 2001 registers. A number and no Option: as a rule it binds no lags, so that
// it needs no test, and an Option's order would put none below every key.
const FAR: u32 = 2099249152;

// Each of n blocks has itself, and no other pair has a path.
pub fn blank(n: usize, delays: &[u32; 64], keys: &mut [u32; 4096])
    requires { Delays n delays.now × (n ≤ 64) }
    ensures { Blank n delays.now keys.new }
{
    *keys = [FAR; 4096];
    for b in 0..n {
        keys[b * 64 + b] = 1048576 - delays[b];
    }
}

// Tries a wire from f to t, which adds `plus` to a key and takes `minus` off, for all start blocks: how many entries it lowers.
pub fn try_wire(keys: &mut [u32; 4096], f: usize, t: usize, plus: u32, minus: u32) -> u32
    requires { Within keys.old × (f < 64) × (t < 64) × (plus ≤ 2097152000) × (minus ≤ 10000) }
    ensures { Lanes f t plus minus 64 keys.old keys.new result }
{
    let mut changed = 0;
    for s in 0..64 {
        let x = keys[f * 64 + s] + plus - minus;
        let old = keys[t * 64 + s];
        keys[t * 64 + s] = x.min(old);
        if x < old {
            changed += 1;
        }
    }
    changed
}
