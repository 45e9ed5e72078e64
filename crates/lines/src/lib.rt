// What is printed of a played archive, and what is added to a line: definitions (specs/) and computed examples (proofs/). Crate report
// has the code.
#![tactic(auto)]

// Lines of services: how many there are, and how many bytes they take.
#[derive(Clone, Copy)]
pub struct Lines {
    pub services: usize,
    pub bytes: usize,
}
