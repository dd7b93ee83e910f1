// The path table, row after row.
ghost use Rattle.std.specs.Prelude.{◌≡◌, ◌*◌, ◌≤◌, length};
ghost use Rattle.sheet.specs.Core.{registers_in};
ghost use Rattle.sheet.specs.Core as C;
ghost use Rattle.tables.specs.Costed.{shape_of, weights_of};
ghost use Rattle.tables.specs.Row.{Rows};

use crate::costed::Costed;
use crate::row::fill_row;
use paths::sound::Sound;
use paths::wiring::Wiring;

// Each starting block's row is lent on as a mutable part of the two tables and filled.
pub fn fill_table(costed: &Costed<'_>, ws: &mut [u32], ds: &mut [u32])
    requires { (costed.now.wiring.now.n * costed.now.wiring.now.n ≤ length ws.old) × (costed.now.wiring.now.n * costed.now.wiring.now.n ≤ length ds.old) }
    ensures { Rows (shape_of costed.now) (weights_of costed.now) costed.now.wiring.now.n ws.old ds.old ws.new ds.new }
{
    let n = costed.wiring.n;
    for u in 0..n {
        let a = u * n;
        let e = a + n;
        fill_row(costed, u, &mut ws[a..e], &mut ds[a..e]);
    }
}

// The table of a sound sheet, over the first n² entries of both lists.
pub fn write_table(sheet: Sound<'_>, ws: &mut [u32], ds: &mut [u32])
    requires { (sheet.n * sheet.n ≤ length ws.old) × (sheet.n * sheet.n ≤ length ds.old) }
    ensures { Rows (C.shape_of sheet.entry.bytes.now) (registers_in sheet.entry.bytes.now) sheet.entry.n ws.old ds.old ws.new ds.new }
{
    let formed = sheet.formed();
    let wiring = Wiring::of(formed);
    let delays = formed.delays();
    fill_table(&Costed::of(&wiring, &delays), ws, ds);
}
