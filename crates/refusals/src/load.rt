// What the solver is given, loaded from a sound sheet; and the lags that it found, written out.
ghost use Rattle.std.specs.Prelude.{◌≡◌, ℕ, ◌<◌, ◌≤◌, length, get_or, replicate};
ghost use Rattle.sheet.specs.Core.{from_in, to_in, registers_in, ceiling_of};
ghost use Rattle.sheet.specs.Filled.{filled};
ghost use Rattle.sheet.specs.Lag.{lag_of};
ghost use Rattle.solver.specs.System.{tabled};
ghost use Rattle.refusals.specs.Load.{wire_bound, ceiling_bound, Unused, Held, Loaded};

use paths::sound::Sound;
use sheet::lag::lag_of;
use sheet::load::Limits;
use sheet::opened::Formed;
use solver::Given;

// The most registers that a wire may end with.
const CEILING: u32 = 2000;

// The ends of each wire, and the bounds of its rule and of its ceiling's.
fn load_wires(
    sheet: Formed<'_>,
    from: &mut [usize; 256],
    to: &mut [usize; 256],
    wires: &mut [u32; 256],
    ceilings: &mut [u32; 256],
)
    ensures from { from.new ≡ filled (from_in sheet.entry.bytes.now) sheet.entry.m from.old }
    ensures to { to.new ≡ filled (to_in sheet.entry.bytes.now) sheet.entry.m to.old }
    ensures wires { wires.new ≡ filled (λ j. wire_bound (registers_in sheet.entry.bytes.now j)) sheet.entry.m wires.old }
    ensures ceilings { ceilings.new ≡ filled (λ j. ceiling_bound (ceiling_of 0) (registers_in sheet.entry.bytes.now j)) sheet.entry.m ceilings.old }
{
    for j in 0..sheet.m {
        let wire = sheet.wire(j);
        from[j] = wire.from;
        to[j] = wire.to;
        wires[j] = wire.registers + 32768;
        ceilings[j] = CEILING + 32768 - wire.registers;
    }
}

// All that the solver is given but a path table: no path is slower than the longest period. In place and never inlined, so that
// the lists stand once on the stack.
#[inline(never)]
pub fn load(sheet: Sound<'_>, given: &mut Given)
    requires { (given.old.n ≡ sheet.n) × (given.old.m ≡ sheet.m) }
    ensures held { Held sheet.entry.bytes.now (tabled given.new 4294967295 (replicate 4096 0) (replicate 4096 0)) }
    ensures kept { (given.new.n ≡ given.old.n) × (given.new.m ≡ given.old.m) × (given.new.period ≡ given.old.period) × (given.new.registers ≡ given.old.registers) × (given.new.delays ≡ given.old.delays) }
    ensures loaded { Unused given.old → Loaded sheet.entry.bytes.now given.new }
{
    let formed = sheet.formed();
    let Limits { lower, upper } = formed.limits();
    given.lower = lower;
    given.upper = upper;
    load_wires(
        formed,
        &mut given.from,
        &mut given.to,
        &mut given.wires,
        &mut given.ceilings,
    );
}

// The first n lags, from their excess numbers. There is no heap: the list has room for 64, and n of them count.
pub fn write_lags(n: usize, e: &[u32; 64], lags: &mut [i16])
    requires { (n ≤ 64) × (length e.now ≡ 64) × (n ≤ length lags.old) × ((b : ℕ) → b < n → get_or e.now b 0 < 65536) }
    ensures { lags.new ≡ filled (λ b. lag_of (get_or e.now b 0)) n lags.old }
{
    for b in 0..n {
        lags[b] = lag_of(e[b]);
    }
}
