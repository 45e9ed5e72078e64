// The theorems about the definitions of crate model, in proofs/: demand 3, range kept, answers, a run as its single
// events, the counts. docs/PROMISES.md says which to read first. There is no code here.
#![tactic(auto)]
