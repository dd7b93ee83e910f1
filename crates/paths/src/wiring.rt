// The wires of a formed sheet, held in lists: code that walks paths reads these.
ghost use Rattle.paths.specs.Lists.{Wires};

use sheet::opened::Formed;

// The numbers of blocks and wires, and for each wire the block that it leads from, the one that it leads to, and its
// registers. Three lists and not one of wires: what is proved of paths speaks of each list by itself. A block's number is a
// byte: a list that is given by value stands on the stack more than once.
#[derive(Clone, Copy)]
pub struct Wiring {
    pub n: usize,
    pub m: usize,
    pub from: [u8; 256],
    pub to: [u8; 256],
    pub registers: [u32; 256],
    pub ghost wires: { Wires n m from to registers },
}

impl Wiring {
    ghost use Rattle.paths.specs.Wired.{WiringOf};

    pub fn of(sheet: Formed<'_>) -> Wiring
        ensures { WiringOf sheet.entry.bytes.now result }
    {
        let mut from = [0; 256];
        let mut to = [0; 256];
        let mut registers = [0; 256];
        for j in 0..sheet.m {
            let wire = sheet.wire(j);
            from[j] = wire.from as u8;
            to[j] = wire.to as u8;
            registers[j] = wire.registers;
        }
        Wiring {
            n: sheet.n,
            m: sheet.m,
            from,
            to,
            registers,
        }
    }
}
