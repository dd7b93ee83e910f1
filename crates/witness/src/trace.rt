// A path link's wires: backward from the end along the row of the start, by wires that complete an entry exactly.
ghost use Rattle.std.specs.Prelude.{◌≡◌, ◌+◌, ◌*◌, ◌<◌, ◌≤◌, get_or};
ghost use Rattle.sheet.specs.Rules.{Told};
ghost use Rattle.witness.specs.Trace.{Based};

use sheet::opened::Formed;
use solver::Given;

// Where a wire out of block f starts in row u of one of the path table's lists: the bare start block has its own number.
fn base(table: &[u32; 4096], n: usize, u: usize, f: usize, own: u32) -> u32
    requires { (n ≤ 64) × (u < n) × (f < n) }
    ensures { Based own u f (get_or table.now (u * n + f) 0) result }
{
    if f == u { own } else { table[u * n + f] }
}

// Whether the total is x + y, which may be too large to add.
fn adds(total: u32, x: u32, y: u32) -> bool
    ensures { Told (total ≡ x + y) result }
{
    x.checked_add(y) == Some(total)
}

// Two blocks u and v of a sheet, of whose entry in the path table it is asked what leads to it. That the table is there is no
// field's fact: it holds a best path of each entry, not only that there is one.
#[derive(Clone, Copy)]
pub struct Pair<'a> {
    pub sheet: Formed<'a>,
    pub given: &'a Given,
    pub u: usize,
    pub v: usize,
    pub ghost inside: { (u < given.now.n) × (v < given.now.n) },
}

impl<'a> Pair<'a> {
    ghost use Rattle.std.specs.Prelude.{◌<◌};
    ghost use Rattle.sheet.specs.Core.{wires_in, registers_in, shape_of};
    ghost use Rattle.sheet.specs.Rules.{Told};
    ghost use Rattle.tables.specs.Back.{Completed};
    ghost use Rattle.witness.specs.Trace.{Tabled, Bare, Apart, Traced, registers_at, delay_at};

    // Whether wire j into v completes the entry exactly.
    fn completes(self, j: usize) -> bool
        requires tabled { Tabled self.sheet.bytes.now self.given.now }
        requires wire { j < wires_in self.sheet.bytes.now }
        requires small { registers_at self.given.now self.u self.v < 4294967295 }
        ensures { Told (Completed (shape_of self.entry.sheet.bytes.now) (registers_in self.entry.sheet.bytes.now) self.entry.u self.entry.v (registers_at self.entry.given.now self.entry.u self.entry.v) (delay_at self.entry.given.now self.entry.u self.entry.v) j) result }
    {
        let Pair { sheet, given, u, v } = self;
        let n = given.n;
        let at = u * n + v;
        let wire = sheet.wire(j);
        if wire.to != v {
            return false;
        }
        let before = base(&given.registers, n, u, wire.from, 0);
        if !adds(given.registers[at], before, wire.registers) {
            return false;
        }
        let early = base(&given.delays, n, u, wire.from, sheet.block(u).delay);
        adds(given.delays[at], early, sheet.block(v).delay)
    }

    // The first wire that completes the entry exactly: there is one, since the pair's best paths are not the bare start block.
    fn last_wire(self) -> usize
        requires tabled { Tabled self.sheet.bytes.now self.given.now }
        requires small { registers_at self.given.now self.u self.v < 4294967295 }
        requires apart { Apart (shape_of self.sheet.bytes.now) (registers_in self.sheet.bytes.now) self.u self.v (registers_at self.given.now self.u self.v) (delay_at self.given.now self.u self.v) }
        ensures { Completed (shape_of self.entry.sheet.bytes.now) (registers_in self.entry.sheet.bytes.now) self.entry.u self.entry.v (registers_at self.entry.given.now self.entry.u self.entry.v) (delay_at self.entry.given.now self.entry.u self.entry.v) result }
    {
        for j in 0..self.given.m {
            if self.completes(j) {
                return j;
            }
        }
        unreachable!()
    }

    // Whether the best path from u to v is the bare start block.
    fn bare(self) -> bool
        requires { Tabled self.sheet.bytes.now self.given.now }
        ensures { Told (Bare (shape_of self.entry.sheet.bytes.now) (registers_in self.entry.sheet.bytes.now) self.entry.u self.entry.v (registers_at self.entry.given.now self.entry.u self.entry.v) (delay_at self.entry.given.now self.entry.u self.entry.v)) result }
    {
        let Pair { sheet, given, u, v } = self;
        let at = u * given.n + v;
        v == u && given.registers[at] == 0 && given.delays[at] == sheet.block(u).delay
    }

    // The wires of a best path from u to v, in path order, at the end of the list lent.
    pub fn trace<'b>(self, wires: &'b mut [u16; 64]) -> &'b [u16]
        requires tabled { Tabled self.sheet.bytes.now self.given.now }
        requires small { registers_at self.given.now self.u self.v < 4294967295 }
        ensures { Traced (shape_of self.entry.sheet.bytes.now) (registers_in self.entry.sheet.bytes.now) self.entry.u self.entry.v (registers_at self.entry.given.now self.entry.u self.entry.v) (delay_at self.entry.given.now self.entry.u self.entry.v) result.now }
    {
        if self.bare() {
            return &wires[64..];
        }
        let Pair { sheet, given, u, v } = self;
        let mut b = v;
        for at in (0..64).rev() {
            let to_b = Pair {
                sheet,
                given,
                u,
                v: b,
            };
            let j = to_b.last_wire();
            wires[at] = j as u16;
            b = sheet.wire(j).from;
            if b == u {
                return &wires[at..];
            }
        }
        unreachable!()
    }
}
