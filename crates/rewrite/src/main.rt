// Reads archives and writes them back: `rewrite NAME..`. Of each file it sees up to 65,536 bytes, and prints one line:
// `NAME: same L bytes`, `NAME: refused N`, `NAME: DIFFERS` or `NAME: cannot be read`; then a last line with the totals.
// A test of reader and writer over the corpus; it assumes nothing of the files.
#![tactic(auto)]

mod one;

use front::Desk;
use one::{Outcome, put};
use std::io::Print;

// Files so far.
#[derive(Clone, Copy, Default)]
struct Totals {
    files: u64,
    same: u64,
    refused: u64,
    differ: u64,
    unreadable: u64,
}

impl Totals {
    // One file more.
    fn count(&mut self, outcome: Outcome) {
        let kind = match outcome {
            Outcome::Same(_) => &mut self.same,
            Outcome::Refused(_) => &mut self.refused,
            Outcome::Differs => &mut self.differ,
            Outcome::Unreadable => &mut self.unreadable,
        };
        *kind = kind.saturating_add(1);
        self.files = self.files.saturating_add(1);
    }

    // Prints the last line, piece by piece. Answers whether all was written.
    fn print(&self, out: &impl Print) -> bool {
        let counts = [
            ("files ", self.files),
            (" same ", self.same),
            (" refused ", self.refused),
            (" differ ", self.differ),
            (" unreadable ", self.unreadable),
        ];
        let mut is_whole = true;
        for (label, count) in counts {
            is_whole &= put(out, label) & put(out, count);
        }
        is_whole & put(out, "\n")
    }
}

// The file that argument i names, and whether its line could be written. A longer argument than a path can be leads to
// no file; its first bytes are told.
fn rewrite_argument(rt: &impl Desk, i: usize, totals: &mut Totals) -> bool {
    let mut name = io::buffer();
    let (count, outcome) = match rt.arg(i, &mut name) {
        Ok(count) => (count, one::outcome_of(rt, &name[..count])),
        Err(_) => (name.len(), Outcome::Unreadable),
    };
    totals.count(outcome);
    rt.write_all(&name[..count]).is_ok() & outcome.print(rt)
}

fn main(rt: HostRuntime) {
    let mut totals = Totals::default();
    let mut is_whole = true;
    for i in 1..front::arg_count(&rt) {
        is_whole &= rewrite_argument(&rt, i, &mut totals);
    }
    is_whole &= totals.print(&rt);
    if !is_whole {
        let _ = rt
            .messages()
            .println("rewrite: not every line could be written");
    }
}
