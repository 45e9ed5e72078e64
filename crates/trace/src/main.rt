// Tells what happened in a stored run: `trace [--front NAME] [--all | --why | --apart] [--] FILE`. docs/TRACE.md has
// the lines. The run is played by the public single events on lent words, one after the other, each with all its
// checks; with --apart nothing is played. Assumes nothing of the file.
#![tactic(auto)]

mod apart;
mod asked;
mod change;
mod places;
mod printed;
mod run;
mod why;

use asked::{Asked, Told, Work};
use front::{Desk, Program, Status};
use run::{Mode, Stop};

fn main(rt: HostRuntime) {
    let program = Program::called(rt, "trace");
    let status = answer(&program);
    program.tell(status);
}

// Does what the words ask for.
fn answer(program: &Program<impl Desk>) -> Status {
    let asked = Asked::of(program);
    match asked.work(program) {
        Ok(work) => trace_file(program, work),
        Err(why) => program.show_usage(why, asked.usage(program)),
    }
}

// Tells what is asked of the run in the file. A line that cannot be written is said.
fn trace_file(program: &Program<impl Desk>, work: Work) -> Status {
    let mut bytes = io::large_buffer();
    let Some(n) = program.read_argument(work.file, &mut bytes) else {
        return Status::Failed;
    };
    match tell(program, &bytes[..n], work.told) {
        Ok(status) => status,
        Err(Stop::Refused) => {
            program.say("an event was refused in a run that the reader accepts");
            Status::Failed
        }
        Err(Stop::Unwritten(error)) => {
            program.no_output(error);
            Status::Failed
        }
    }
}

// Tells it of the run that the bytes hold. The last line has the counts; failed asks have none.
fn tell(program: &Program<impl Desk>, bytes: &[u8], told: Told) -> Result<Status, Stop> {
    let run = match archive::read(bytes) {
        Ok(run) => run,
        Err(refusal) => {
            report::print_refusal(&program.rt, u8::from(refusal))?;
            return Ok(Status::Failed);
        }
    };
    match told {
        Told::Apart => apart::print_sites(&program.rt, &run.network)?,
        Told::Run(mode) => {
            let counts = run::trace(&program.rt, &run, mode)?;
            if mode != Mode::Why {
                report::print_line(&program.rt, 0, counts)?;
            }
        }
    }
    Ok(Status::Done)
}
