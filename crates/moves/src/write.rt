// The moved sheet is written: the sheet is copied, then each field that changes is put anew.
ghost use Rattle.std.specs.Prelude.{◌≡◌, ◌<◌, ◌≤◌, length};
ghost use Rattle.moves.specs.Lags.{lags_in};
ghost use Rattle.moves.specs.Write.{RegistersMoved, copied, limits_from, limits_put, puts, registers_from, moved_registers, written};

use crate::lags::{Move, lag_at};
use sheet::block::Limit;
use sheet::bytes::{put_lag, put_u16};

fn copy_sheet(s: &[u8], moved: &mut [u8])
    requires { length s.now ≤ length moved.old }
    ensures { moved.new ≡ copied s.now moved.old }
{
    moved[..s.len()].copy_from_slice(s);
}

// Where the limits of this kind stand: in block 0, and in each block at the same place.
fn limits_from(which: Limit) -> usize
    ensures { (result ≡ limits_from which) × (result ≤ 22) }
{
    match which {
        Limit::Lower => 20,
        Limit::Upper => 22,
    }
}

impl<'a> Move<'a> {
    // Both limits of each block, less its lag: a block's entry is read once.
    fn put_limits(self, moved: &mut [u8])
        requires { length self.asked.sheet.bytes.now ≤ length moved.old }
        ensures { moved.new ≡ limits_put self.entry.asked.sheet.bytes.now (lags_in self.entry.asked.lags.now) self.entry.asked.sheet.n moved.old }
    {
        let low = limits_from(Limit::Lower);
        let high = limits_from(Limit::Upper);
        for b in 0..self.asked.sheet.n {
            let block = self.asked.sheet.block(b);
            let lag = lag_at(self.asked.lags, b);
            let lower = block.limit(Limit::Lower);
            let upper = block.limit(Limit::Upper);
            put_lag(moved, low + 8 * b, lower + 32768 - lag);
            put_lag(moved, high + 8 * b, upper + 32768 - lag);
        }
    }

    // The registers of wire j once moved.
    fn registers(self, j: usize) -> u32
        requires { j < self.asked.sheet.m }
        ensures { RegistersMoved self.entry.asked.sheet.bytes.now (lags_in self.entry.asked.lags.now) j result }
    {
        let wire = self.asked.sheet.wire(j);
        wire.registers + lag_at(self.asked.lags, wire.to) - lag_at(self.asked.lags, wire.from)
    }

    fn put_registers(self, moved: &mut [u8])
        requires { length self.asked.sheet.bytes.now ≤ length moved.old }
        ensures { moved.new ≡ puts (registers_from self.entry.asked.sheet.n) (moved_registers self.entry.asked.sheet.bytes.now (lags_in self.entry.asked.lags.now)) self.entry.asked.sheet.m moved.old }
    {
        let base = 20 + 8 * self.asked.sheet.n;
        for j in 0..self.asked.sheet.m {
            put_u16(moved, base + 8 * j, self.registers(j));
        }
    }

    // The moved sheet over the first bytes of a lent list.
    pub fn write(self, moved: &mut [u8])
        requires { length self.asked.sheet.bytes.now ≤ length moved.old }
        ensures { moved.new ≡ written self.entry.asked.sheet.bytes.now (lags_in self.entry.asked.lags.now) moved.old }
    {
        copy_sheet(self.asked.sheet.bytes, moved);
        self.put_limits(moved);
        self.put_registers(moved);
    }
}
