// `play [--front NAME] [--help] [--] [FILE]`: plays the archive in FILE, or on standard input, of which it sees up to
// 65,536 bytes: prints each service as `draw packet site`, then the counts; of a refused archive only `refused N`. What
// cannot be read or written is told on standard error. Assumes nothing of the file.
#![tactic(auto)]

use front::{Desk, NoWork, Program, Status, Usage, Words};
use machine::PlayAnswer;
use std::io::Print;

const USAGE: Usage = Usage {
    words: "[--] [FILE]",
    meaning: &[
        "Plays the archive in FILE, or on standard input: a line `draw packet site` for each\n",
        "service, then `accepted A pairs P serviced V owed O`; or only `refused N`.\n",
    ],
    details: &[],
};

fn main(rt: HostRuntime) {
    let program = Program::called(rt, "play");
    let status = answer(&program);
    program.tell(status);
}

// Does what the words ask for.
fn answer(program: &Program<impl Desk>) -> Status {
    match file_of(program) {
        Ok(file) => play(program, file),
        Err(why) => program.show_usage(why, USAGE),
    }
}

// The argument that names the file, if there is one.
fn file_of(program: &Program<impl Desk>) -> Result<Option<usize>, NoWork> {
    let words = Words::of(program)?;
    if words.names > 1 {
        return Err(program.misused("play takes one file"));
    }
    Ok(words.last)
}

// Plays the archive in the file that argument `file` names, or on standard input.
fn play(program: &Program<impl Desk>, file: Option<usize>) -> Status {
    let mut bytes = io::large_buffer();
    let Some(n) = program.read(file, &mut bytes) else {
        return Status::Failed;
    };
    let mut book = [0u8; report::BOOK];
    let played = machine::play(&bytes[..n], &mut book);
    if let Err(error) = print_answer(&program.rt, &book, PlayAnswer::from(played)) {
        program.no_output(error);
        return Status::Failed;
    }
    match played {
        Ok(_) => Status::Done,
        Err(_) => Status::Failed,
    }
}

// The services of the book, of which a refused run has none, then the line of the answer.
fn print_answer(out: &impl Print, book: &[u8], answer: PlayAnswer) -> std::io::Result<()> {
    report::print_services(out, book, answer.counts.serviced)?;
    report::print_line(out, answer.refusal, answer.counts)
}
