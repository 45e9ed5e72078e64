// Says of each file whether it is an archive, a line each: `inspect [--front NAME] [--help] [--] FILE..`. Of one that is
// not, the reader's number, and in words what is wrong and where: the byte and what stands there. It assumes nothing of
// the files; of a longer one it sees the first 65,536 bytes.
#![tactic(auto)]

mod heads;
mod held;
mod items;
mod verdict;

use front::{Desk, Line, NoWork, Program, Status, Usage, Words};
use std::fmt::Write as _;
use std::io::ErrorKind;
use verdict::Verdict;

// The longest argument that Linux passes, with the 0 that ends it.
const ARGUMENT: usize = 131072;
// Room for a line: such an argument with every byte escaped, and the words around it.
const LINE: usize = 4 * ARGUMENT + 1024;

const USAGE: Usage = Usage {
    words: "[--] FILE..",
    meaning: &[
        "Says of each FILE whether it is an archive; if it is not, what is wrong and where.\n",
    ],
    details: &[],
};

// The files so far: whether each was an archive whose line could be written, and whether `--` has come.
#[derive(Clone, Copy)]
struct Files {
    status: Status,
    is_ended: bool,
}

// The reader of the lines has gone: no more files are looked at.
#[derive(Clone, Copy)]
struct Gone;

fn main(rt: HostRuntime) {
    let program = Program::called(rt, "inspect");
    let status = answer(&program);
    program.tell(status);
}

// Does what the words ask for.
fn answer(program: &Program<impl Desk>) -> Status {
    match words_of(program) {
        Ok(_) => inspect_words(program),
        Err(why) => program.show_usage(why, USAGE),
    }
}

fn words_of(program: &Program<impl Desk>) -> Result<Words, NoWork> {
    let words = Words::of(program)?;
    if words.names == 0 {
        return Err(program.misused("no FILE is named"));
    }
    Ok(words)
}

// The files that the words name.
fn inspect_words(program: &Program<impl Desk>) -> Status {
    let mut room = [0u8; ARGUMENT];
    let mut line = Line::new();
    let mut files = Files {
        status: Status::Done,
        is_ended: false,
    };
    for i in program.words() {
        let n = program.word_at(i, &mut room);
        match take_word(program, &room[..n], &mut line, files) {
            Ok(more) => files = more,
            Err(Gone) => return Status::Failed,
        }
    }
    files.status
}

// One more word. The only option among them is the first `--`.
fn take_word(
    program: &Program<impl Desk>,
    word: &[u8],
    line: &mut Line<LINE>,
    files: Files,
) -> Result<Files, Gone> {
    if !files.is_ended && matches!(word, b"--") {
        return Ok(Files {
            is_ended: true,
            ..files
        });
    }
    match inspect(program, word, line)? {
        Status::Done => Ok(files),
        status => Ok(Files { status, ..files }),
    }
}

// Prints the line of the file of this name, and answers its status. The line is one for all files, since its room is large.
fn inspect(
    program: &Program<impl Desk>,
    name: &[u8],
    line: &mut Line<LINE>,
) -> Result<Status, Gone> {
    line.clear();
    line.add_name(name);
    let mut room = io::large_buffer();
    let Some(count) = program.read_file(name, &mut room) else {
        let _ = writeln!(line, ": cannot be read");
        return printed(program, line.as_bytes(), Status::Failed);
    };
    let verdict = Verdict::of(&room[..count]);
    let _ = writeln!(line, ": {verdict}");
    printed(program, line.as_bytes(), verdict.status())
}

// Writes a line. Answers this status, unless it could not be written.
fn printed(program: &Program<impl Desk>, line: &[u8], status: Status) -> Result<Status, Gone> {
    match program.rt.write_all(line) {
        Ok(()) => Ok(status),
        Err(error) if matches!(error.kind(), ErrorKind::BrokenPipe) => Err(Gone),
        Err(error) => {
            program.no_output(error);
            Ok(Status::Failed)
        }
    }
}
