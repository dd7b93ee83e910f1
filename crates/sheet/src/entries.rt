// The first bad block and the first bad wire of a sheet: refusals 5 and 6.
ghost use Rattle.std.specs.Prelude.{◌≡◌, IfOk};
ghost use Rattle.sheet.specs.Rules.{Staged};
ghost use Rattle.sheet.specs.Sheet.{block_rules, wire_rules, entry_rules};

use crate::block::read_block;
use crate::opened::{Formed, Opened};
use crate::refusal::Refusal;
use crate::wire::read_wire;

// This loop and the next stay two, as do those of refusals 8 and 9: one function of both would take two closures, the test and
// the refusal, whose clauses are longer than a loop.
fn check_blocks(sheet: Opened<'_>) -> Result<(), Refusal>
    ensures { Staged (block_rules sheet.entry.bytes.now) result }
{
    for b in 0..sheet.n {
        let Ok(_) = read_block(sheet.bytes, b) else {
            return Err(Refusal::Block(b as u32));
        };
    }
    Ok(())
}

fn check_wires(sheet: Opened<'_>) -> Result<(), Refusal>
    ensures { Staged (wire_rules sheet.entry.bytes.now) result }
{
    for j in 0..sheet.m {
        let Ok(_) = read_wire(sheet.bytes, sheet.n, j) else {
            return Err(Refusal::Wire(j as u32));
        };
    }
    Ok(())
}

// Refusals 5 and 6 of a sheet that 1, 2 and 3 pass.
pub fn check_entries(sheet: Opened<'_>) -> Result<Formed<'_>, Refusal>
    ensures staged { Staged (entry_rules sheet.entry.bytes.now) result }
    ensures same { IfOk result (λ f. f.bytes.now ≡ sheet.entry.bytes.now) }
{
    check_blocks(sheet)?;
    check_wires(sheet)?;
    Ok(Formed {
        bytes: sheet.bytes,
        n: sheet.n,
        m: sheet.m,
    })
}
