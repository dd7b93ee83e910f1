// A path along a list of words, wire by wire.
ghost use Rattle.loops.specs.Reads.{StepGiven, FollowGiven};
ghost use Rattle.std.specs.Prelude.{◌≤◌, length};

use sheet::opened::Formed;

// The block that a wire or a path leads to, with the registers and the delay that it adds.
#[derive(Clone, Copy, Debug, PartialEq, Eq)]
pub struct Leg {
    pub to: usize,
    pub registers: u32,
    pub delay: u32,
}

// Wire j out of block `here`, if it leads on from there.
fn lead(sheet: Formed<'_>, here: usize, j: usize) -> Option<Leg>
    ensures { StepGiven sheet.entry.bytes.now here j result }
{
    if j >= sheet.m {
        return None;
    }
    let wire = sheet.wire(j);
    if wire.from != here {
        return None;
    }
    Some(Leg {
        to: wire.to,
        registers: wire.registers,
        delay: sheet.block(wire.to).delay,
    })
}

// Along the wires that the words name, out of block `start`: the end, the path's registers and its delay.
pub fn follow(sheet: Formed<'_>, start: usize, wires: &[u16]) -> Option<Leg>
    requires { length wires.now ≤ 4224 }
    ensures { FollowGiven sheet.entry.bytes.now wires.now start (length wires.now) result }
{
    if start >= sheet.n {
        return None;
    }
    let mut path = Leg {
        to: start,
        registers: 0,
        delay: sheet.block(start).delay,
    };
    for wire in wires {
        let leg = lead(sheet, path.to, *wire as usize)?;
        path.to = leg.to;
        path.registers += leg.registers;
        path.delay += leg.delay;
    }
    Some(path)
}
