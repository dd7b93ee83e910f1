// Room for standard input, which a program reads whole.

// For one sheet: a byte more than the longest has, so that longer input is seen to be longer.
pub const SHEET: usize = 2577;

// For a case file, which has at most 2,000,000 bytes.
pub const CASES: usize = 2097152;

// N bytes. No promise of its length: a list of millions is not to be computed in a proof.
pub fn space<const N: usize>() -> [u8; N] {
    [0; N]
}
