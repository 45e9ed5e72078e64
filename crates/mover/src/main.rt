// `mover [--front NAME] [--help] [--] over|back [FILE]`: moves the archive in FILE, or on standard input, of which it
// sees up to 65,536 bytes, over to version 2 or back to version 1, and writes the moved bytes, and nothing else, to
// standard output. Of a refused archive it writes nothing: the number stands behind the status in the line for the
// front, or else on standard error. Assumes nothing of the file.
#![tactic(auto)]

mod asked;

use asked::{Asked, Way};
use base::Refusal;
use front::{Desk, Program, Status, Usage};
use std::fmt;

const USAGE: Usage = Usage {
    words: "[--] over|back [FILE]",
    meaning: &[
        "Moves the archive in FILE, or on standard input, over to version 2 or back to version 1,\n",
        "and writes the moved bytes to standard output.\n",
    ],
    details: &[],
};

// How a move ended: the status, or a refusal.
#[derive(Clone, Copy)]
enum Ended {
    With(Status),
    Refused(Refusal),
}

// The line `STATUS REFUSAL` for the front, without its newline; 0 is no refusal.
impl fmt::Display for Ended {
    fn fmt<W: fmt::Write>(&self, f: &mut fmt::Formatter<W>) -> fmt::Result {
        match self {
            Ended::With(status) => write!(f, "{status} 0"),
            Ended::Refused(refusal) => write!(f, "{} {refusal}", Status::Failed),
        }
    }
}

fn main(rt: HostRuntime) {
    let program = Program::called(rt, "mover");
    let ended = answer(&program);
    program.tell(ended);
}

// Does what the words ask for. A refusal is said, unless the front is told it.
fn answer(program: &Program<impl Desk>) -> Ended {
    let ended = match Asked::of(program) {
        Ok(asked) => move_archive(program, asked),
        Err(why) => Ended::With(program.show_usage(why, USAGE)),
    };
    if let Ended::Refused(refusal) = ended {
        if !program.is_fronted() {
            program.say(format_args!("refused {refusal}"));
        }
    }
    ended
}

// Reads the archive, moves it and writes what came of it.
fn move_archive(program: &Program<impl Desk>, asked: Asked) -> Ended {
    let mut bytes = io::large_buffer();
    let Some(n) = program.read(asked.file, &mut bytes) else {
        return Ended::With(Status::Failed);
    };
    let mut room = [0u8; format::LONGEST];
    match moved(asked.way, &bytes[..n], &mut room) {
        Ok(length) => Ended::With(put_out(program, &room, length)),
        Err(refusal) => Ended::Refused(refusal),
    }
}

fn moved(way: Way, bytes: &[u8], room: &mut [u8]) -> Result<usize, Refusal> {
    match way {
        Way::Over => archive::move_over(bytes, room),
        Way::Back => archive::move_back(bytes, room),
    }
}

// Writes the first `count` bytes of the room, which has them.
fn put_out(program: &Program<impl Desk>, room: &[u8], count: usize) -> Status {
    match room.get(..count) {
        Some(bytes) if program.print(bytes) => Status::Done,
        Some(_) | None => Status::Failed,
    }
}
