// The lent lists: what they hold before a call, and whether they still do.
ghost use Rattle.std.specs.Prelude.{◌<◌, ◌≡◌, ℕ, length};
ghost use Rattle.std.specs.Bool.{Decides};
ghost use Rattle.std.specs.Cmp.{signed_Decides, unsigned_Decides};
ghost use Rattle.sheet.specs.Rules.{Told};
ghost use Rattle.records.specs.Lent.{AsBefore, KeptFrom, byte_before, entry_before, lag_before, word_before};

// As many entries as the longest list has that a record lends or gives.
pub const LONGEST: usize = 4300;

// What the entries of a lent list are: entry i holds `before(i)` before a call, so that one that was written shows.
pub trait Lent: Copy + PartialEq {
    ghost before: { ℕ → Self };

    fn before(i: usize) -> Self
        requires { i < LONGEST }
        ensures { result ≡ before i };

    // Entries that are equal are the same.
    ghost exact: { (x y : Self) → Decides (Self.eq x y) (x ≡ y) };
}

// A table: no table has a number as large.
impl Lent for u32 {
    ghost before = { entry_before };

    ghost exact = { unsigned_Decides };

    fn before(i: usize) -> u32 {
        3000000000 + i as u32
    }
}

// A sheet to fill: bytes in a row differ, so that a shifted copy shows.
impl Lent for u8 {
    ghost before = { byte_before };

    ghost exact = { unsigned_Decides };

    fn before(i: usize) -> u8 {
        ((7 * i + 3) % 256) as u8
    }
}

// A loop list: no word of a loop is as large.
impl Lent for u16 {
    ghost before = { word_before };

    ghost exact = { unsigned_Decides };

    fn before(i: usize) -> u16 {
        (50000 + i) as u16
    }
}

// A lag list: no range has the lag 20,000 + i.
impl Lent for i16 {
    ghost before = { lag_before };

    ghost exact = { signed_Decides };

    fn before(i: usize) -> i16 {
        (20000 + i) as i16
    }
}

// A list to lend, made anew for every call.
pub fn marked<T: Lent>() -> [T; LONGEST]
    ensures { (length result ≡ LONGEST) × KeptFrom T.before 0 result }
{
    std::array::from_fn(
        |i| -> T
            requires { i < LONGEST }
            ensures { result ≡ T.before i }
        { T::before(i) },
    )
}

// Every entry from `first` on still holds what it held before the call.
pub fn kept<T: Lent>(list: &[T; LONGEST], first: usize) -> bool
    ensures { Told (KeptFrom T.before first list.now) result }
{
    (first..LONGEST).all(
        |i| -> bool
            requires { (i < LONGEST) × (length list.now ≡ LONGEST) }
            ensures { Told (AsBefore T.before list.entry.now i) result }
        { list[i] == T::before(i) },
    )
}
