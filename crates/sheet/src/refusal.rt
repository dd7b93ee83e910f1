// The refusals of a question, each with what it names.

// 01: "They are tried in the order 1 to 12; the first that applies is given."
#[derive(Clone, Copy, Debug, PartialEq, Eq)]
pub enum Refusal {
    // 1: fewer than 16 bytes.
    Short,
    // 2: so many blocks or wires are not allowed.
    Counts,
    // 3: an offset, the total or the length is wrong.
    Offsets,
    // 4: a lent list is too short, the first or else the second.
    FirstList,
    SecondList,
    // 5: the first block that breaks its rule.
    Block(u32),
    // 6: the first wire that breaks its rule.
    Wire(u32),
    // 7: the smallest block on a register-free loop.
    Loop(u32),
    // 8: the first block whose lag is outside its range.
    Lag(u32),
    // 9: the first wire that would leave its limits.
    Registers(u32),
    // 10 and 11: no lags are permitted, or none that meet the period; so many words prove it.
    NoLags(u32),
    NoLagsAt(u32),
    // 12: the words prove nothing.
    NoProof,
}
