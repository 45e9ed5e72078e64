// What the calls of the C library answer, and what becomes of the slices that they are lent: specs/Calls.antt, computed
// on run R in proofs/Examples.antt. The code is in crate exports; here, without code, a must-fail edit takes seconds.
#![tactic(auto)]

// The places of a slice that the counts of a run take.
pub const COUNTS: usize = 4;
