// Whether lags are permitted: refusals 8 and 9.
ghost use Rattle.std.specs.Prelude.{◌≡◌, ◌<◌, ◌≤◌, pos, length, get_or, IfOk};
ghost use Rattle.sheet.specs.Core.{core_of};
ghost use Rattle.sheet.specs.Reads.{ExcessIs};
ghost use Rattle.sheet.specs.Rules.{Staged, Told};
ghost use Rattle.moves.specs.Lags.{lags_in, InRange, Fits, Permitted};
ghost use Rattle.moves.specs.Move.{range_rules, fit_rules, lag_rules};

use sheet::lag::excess_of;
use sheet::opened::Formed;
use sheet::refusal::Refusal;

// The excess number of block b's lag.
pub fn lag_at(lags: &[i16], b: usize) -> u32
    requires { b < length lags.now }
    ensures { ExcessIs (get_or lags.now b (pos 0)) result }
{
    excess_of(lags[b])
}

// A sheet and a lag for each of its blocks.
#[derive(Clone, Copy)]
pub struct Asked<'a> {
    pub sheet: Formed<'a>,
    pub lags: &'a [i16],
    pub ghost enough: { sheet.n ≤ length lags.now },
}

// The same where the lags are permitted.
#[derive(Clone, Copy)]
pub struct Move<'a> {
    pub asked: Asked<'a>,
    pub ghost permitted: { Permitted (core_of asked.sheet.bytes.now) (lags_in asked.lags.now) },
}

fn in_range(asked: Asked<'_>, b: usize) -> bool
    requires { b < asked.sheet.n }
    ensures { Told (InRange (core_of asked.entry.sheet.bytes.now) (lags_in asked.entry.lags.now) b) result }
{
    let block = asked.sheet.block(b);
    let e = lag_at(asked.lags, b);
    block.lower <= e && e <= block.upper
}

fn wire_fits(asked: Asked<'_>, j: usize) -> bool
    requires { j < asked.sheet.m }
    ensures { Told (Fits (core_of asked.entry.sheet.bytes.now) (lags_in asked.entry.lags.now) j) result }
{
    let wire = asked.sheet.wire(j);
    let a = lag_at(asked.lags, wire.from);
    let b = lag_at(asked.lags, wire.to);
    a <= wire.registers + b && wire.registers + b <= a + 2000
}

fn check_ranges(asked: Asked<'_>) -> Result<(), Refusal>
    ensures { Staged (range_rules asked.entry.sheet.bytes.now (lags_in asked.entry.lags.now)) result }
{
    for b in 0..asked.sheet.n {
        if !in_range(asked, b) {
            return Err(Refusal::Lag(b as u32));
        }
    }
    Ok(())
}

fn check_wires(asked: Asked<'_>) -> Result<(), Refusal>
    ensures { Staged (fit_rules asked.entry.sheet.bytes.now (lags_in asked.entry.lags.now)) result }
{
    for j in 0..asked.sheet.m {
        if !wire_fits(asked, j) {
            return Err(Refusal::Registers(j as u32));
        }
    }
    Ok(())
}

// Refusals 8 and 9 of a formed sheet.
pub fn check_lags(asked: Asked<'_>) -> Result<Move<'_>, Refusal>
    ensures staged { Staged (lag_rules asked.entry.sheet.bytes.now (lags_in asked.entry.lags.now)) result }
    ensures same { IfOk result (λ m. (m.asked.sheet.bytes.now ≡ asked.entry.sheet.bytes.now) × (m.asked.lags.now ≡ asked.entry.lags.now)) }
{
    check_ranges(asked)?;
    check_wires(asked)?;
    Ok(Move { asked })
}
