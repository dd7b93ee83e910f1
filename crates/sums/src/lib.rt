// 01's sums marked P, as one table with one theorem: specs/Lines.antt and proofs/Table.antt. No code.
#![tactic(auto)]
