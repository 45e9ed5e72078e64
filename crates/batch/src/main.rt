// Plays many archives: `batch [--front NAME] [--help] [--services] [-0] [--slice A B] [--unplayed] [--] [NAME..]`,
// with no name those on standard input, one to a line, or with `-0` each ended by a 0. Prints one line a file, by one
// write, and a last line with the totals; with `--services` each file's services before its line, as `play` does. A
// name that cannot be opened or read, whatever its length, costs its line. Assumes nothing of the files.
#![tactic(auto)]

mod asked;
mod names;
mod one;

use asked::Asked;
use front::{Desk, Line, Program, Status, Usage};
use names::Names;
use one::{Stop, Totals};
use std::fmt;
use std::fmt::Write as _;

const USAGE: Usage = Usage {
    words: "[--services] [-0] [--slice A B] [--unplayed] [--] [NAME..]",
    meaning: &[
        "Plays the archives of these names, or of those on standard input, one to a line.\n",
    ],
    details: &[
        "  --services   prints the services of each too, before its line\n",
        "  -0           a name on standard input ends with a 0, not with its line\n",
        "  --slice A B  leaves out A names of standard input and plays the next B; no totals\n",
        "  --unplayed   opens nothing, and says `not played` of each name\n",
    ],
};

// What came of it: the status, and what was played.
#[derive(Clone, Copy)]
struct Outcome {
    status: Status,
    totals: Totals,
}

// The line of numbers: `STATUS FILES PLAYED REFUSED UNREADABLE`.
impl fmt::Display for Outcome {
    fn fmt<W: fmt::Write>(&self, f: &mut fmt::Formatter<W>) -> fmt::Result {
        let totals = self.totals;
        write!(
            f,
            "{} {} {} {} {}",
            self.status, totals.files, totals.played, totals.refused, totals.unreadable
        )
    }
}

fn main(rt: HostRuntime) {
    let program = Program::called(rt, "batch");
    let outcome = answer(&program);
    program.tell(outcome);
}

// Does what the words ask for.
fn answer(program: &Program<impl Desk>) -> Outcome {
    match Asked::of(program) {
        Ok(asked) => play_names(program, asked),
        Err(why) => Outcome {
            status: program.show_usage(why, USAGE),
            totals: Totals::default(),
        },
    }
}

fn play_names(program: &Program<impl Desk>, asked: Asked) -> Outcome {
    let mut names = Names::new(asked);
    let taken = if asked.words.names > 0 {
        names.take_arguments(program)
    } else {
        names.take_input(program)
    };
    let totals = names.totals;
    let is_whole = match taken {
        Ok(()) | Err(Stop::Enough) => show_totals(program, asked, totals),
        Err(Stop::Cut) => {
            show_totals(program, asked, totals);
            false
        }
        Err(Stop::Lost) => false,
    };
    let is_done = is_whole && totals.refused == 0 && totals.unreadable == 0;
    Outcome {
        status: if is_done {
            Status::Done
        } else {
            Status::Failed
        },
        totals,
    }
}

// Prints the totals, unless this is a slice. Answers whether nothing is lost.
fn show_totals(program: &Program<impl Desk>, asked: Asked, totals: Totals) -> bool {
    if asked.slice.is_some() {
        return true;
    }
    let mut line = Line::<128>::new();
    let _ = writeln!(line, "{totals}");
    program.print(line.as_bytes())
}
