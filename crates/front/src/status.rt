// The status that a program ends with.
use std::fmt;

// All was done; something was refused, could not be read or could not be written; the words were wrong.
#[derive(Clone, Copy, PartialEq, Eq)]
pub enum Status {
    Done,
    Failed,
    Wrong,
}

impl From<Status> for u64 {
    fn from(status: Status) -> u64 {
        match status {
            Status::Done => 0,
            Status::Failed => 1,
            Status::Wrong => 2,
        }
    }
}

// Its number.
impl fmt::Display for Status {
    fn fmt<W: fmt::Write>(&self, f: &mut fmt::Formatter<W>) -> fmt::Result {
        let number = u64::from(*self);
        write!(f, "{number}")
    }
}
