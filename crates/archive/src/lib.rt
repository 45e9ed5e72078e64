// The archive, versions 1 and 2: reader and writer of the stored run, and the moves from one version to the other. Crate
// format has the bytes and what is answered, crate faults judges lent bytes; proofs/RoundTripBytes.antt and
// proofs/RoundTripRuns.antt show that reader and writer are inverse: `write_read`, `read_write`, `exactly`;
// proofs/Moved.antt that the moves are. The public functions take any slice, of any length, and any run.
#![tactic(auto)]

mod mover;
mod reader;
mod writer;

pub use mover::{move_back, move_over};
pub use reader::{check, read};
pub use writer::write;
