// What a record gives: how many blocks its sheet names, and after the sheet lags for a move or words for a loop check.
ghost use Rattle.std.specs.Prelude.{◌≡◌, ◌+◌, ◌*◌, ◌<◌, ◌≤◌, List, ℕ, length};
ghost use Rattle.sheet.specs.Bytes.{i16_at, u16_at};
ghost use Rattle.sheet.specs.Core.{blocks_in};
ghost use Rattle.records.specs.Given.{GivenBy};

use crate::lent::LONGEST;
use sheet::bytes::u16_at;

// A number that a record gives in two bytes.
pub trait TwoBytes: Copy + Default {
    ghost at: { List ℕ → ℕ → Self };

    fn read(bytes: &[u8], place: usize) -> Self
        requires { place + 1 < length bytes.now }
        ensures { result ≡ at bytes.now place };
}

impl TwoBytes for u16 {
    ghost at = { u16_at };

    fn read(bytes: &[u8], place: usize) -> u16 {
        u16::from_le_bytes([bytes[place], bytes[place + 1]])
    }
}

impl TwoBytes for i16 {
    ghost at = { i16_at };

    fn read(bytes: &[u8], place: usize) -> i16 {
        i16::from_le_bytes([bytes[place], bytes[place + 1]])
    }
}

// As long as the longest list; entries that the record has not are 0 and never lent.
pub fn given<T: TwoBytes>(more: &[u8]) -> [T; LONGEST]
    ensures { (length result ≡ LONGEST) × GivenBy T.at more.now result }
{
    let mut list = [T::default(); LONGEST];
    for k in 0..list.len().min(more.len() / 2) {
        list[k] = T::read(more, 2 * k);
    }
    list
}

// The blocks that the sheet's first two bytes name; 0 where it is shorter.
pub fn blocks(sheet: &[u8]) -> usize
    ensures bound { result < 65536 }
    ensures named { 2 ≤ length sheet.now → result ≡ blocks_in sheet.now }
    ensures short { length sheet.now < 2 → result ≡ 0 }
{
    if sheet.len() < 2 {
        return 0;
    }
    u16_at(sheet, 0) as usize
}
