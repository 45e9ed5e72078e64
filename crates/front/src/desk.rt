// The system as the programs reach it at their desk.
use std::io::{Print, Stderr};
use std::rt::{Env, Files};

// Arguments, files, standard input and standard output, and standard error, to which messages go.
pub trait Desk: Env + Files + Input + Print {
    type Messages: Print + Drop;

    fn messages(&self) -> Self::Messages;
}

impl Desk for HostRuntime {
    type Messages = Stderr;

    fn messages(&self) -> Stderr {
        self.stderr()
    }
}
