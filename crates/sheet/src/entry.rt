// What is told of an entry that breaks its rule.

// The number of the block or of the wire.
#[derive(Clone, Copy, Debug, PartialEq, Eq)]
pub struct BadEntry {
    pub number: usize,
}
