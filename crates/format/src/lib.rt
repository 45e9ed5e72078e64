// The archive's format, versions 1 and 2: what reader, writer and moves answer, and where an archive is at fault.
// specs/Format.antt has the bytes, specs/Refusals.antt the refusals and what stands beside them, specs/Moves.antt the moves
// from one version to the other, specs/Faults.antt the place of a fault; proofs/Examples.antt and WideExamples.antt compute
// the first two on document 01's run R, its bounds and an archive for each refusal, proofs/MoveExamples.antt and
// FaultExamples.antt the others. The code is in the crates archive and faults.
#![tactic(auto)]

// The bytes of the longest archive, which is of version 2.
pub const LONGEST: usize = 14
    + 2 * base::PORTS * base::SITES
    + 2 * base::SITES * base::SITES
    + 11 * base::SENDS;

// Where the reader finds bytes at fault: its refusal, and the number of the first channel (4 x site + port - 1), route (from-site
// x S + to-site) or send at fault; 0 where the head is.
#[derive(Clone, Copy)]
pub struct Fault {
    pub refusal: base::Refusal,
    pub place: usize,
}
