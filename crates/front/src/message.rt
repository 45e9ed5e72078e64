// Messages on standard error: each begins with the name of the program, and a name in it is shown as on standard
// output, on one line. The usage.
ghost use Rattle.std.specs.Prelude.{◌≡◌, ◌≤◌, length, IfSome};
ghost use Rattle.front.specs.declared.status.Status.TheVariants.{Wrong};
ghost use Rattle.front.specs.declared.words.NoWork.TheVariants.{Misuse};

use crate::desk::Desk;
use crate::line::Line;
use crate::program::Program;
use crate::status::Status;
use crate::words::NoWork;
use std::fmt::{Display, Write as _};
use std::io::{Error, ErrorKind, Print, Result};

// Room for a message: a name of 4,096 bytes at its longest, and the words around it.
const MESSAGE: usize = 16896;
// Room for the system's words for an error.
const WORDS: usize = 256;
// Room for a message, and behind it a colon, a blank, those words and a newline.
const WHOLE: usize = MESSAGE + WORDS + 3;
// Room for the first line of a usage.
const USAGE: usize = 256;
// Linux's number of an error that has the same kind as a lack of permission.
const NOT_PERMITTED: i32 = 1;

// The usage of a program: the words that it takes, lines on what it does, and lines behind them on its words. Each line
// goes out by one write; one of `details` is tried also where one before it could not be written. The texts are lent, so
// that a caller may choose or compose them as it runs.
#[derive(Clone, Copy)]
pub struct Usage<'a> {
    pub words: &'a str,
    pub meaning: &'a [&'a str],
    pub details: &'a [&'a str],
}

impl<R: Desk> Program<R> {
    // `NAME: TEXT`.
    pub fn say<D: Display + Drop>(&self, text: D) {
        let mut line = Line::<MESSAGE>::new();
        self.begin(&mut line);
        let _ = writeln!(line, "{text}");
        self.put(line.as_bytes());
    }

    // The same, with a word behind the text.
    pub fn say_word(&self, text: &str, word: &[u8]) {
        let mut line = Line::<MESSAGE>::new();
        self.begin(&mut line);
        let _ = line.write_str(text);
        line.add_name(word);
        let _ = line.write_str("\n");
        self.put(line.as_bytes());
    }

    // Says what is wrong with the words.
    pub fn misused(&self, why: &str) -> NoWork {
        self.say(why);
        NoWork::Misuse
    }

    // The front of a message: the name of the program. (The line is filled where it lies: its room is large.)
    fn begin(&self, line: &mut Line<MESSAGE>) {
        line.add_bytes(self.name.as_bytes());
        line.add_bytes(b": ");
    }

    // Writes a message. One that cannot be written is lost.
    fn put(&self, line: &[u8]) {
        let _ = self.rt.messages().write_all(line);
    }

    // `NAME: FILE cannot be read: why`.
    pub(crate) fn say_why(&self, file: &[u8], error: Error) {
        match error.kind() {
            ErrorKind::NotFound => self.say_unread(file, "there is no such file"),
            ErrorKind::IsADirectory => self.say_folder(file),
            ErrorKind::PermissionDenied if error.raw_os_error() != Some(NOT_PERMITTED) => {
                self.say_unread(file, "no permission")
            }
            _ => self.say_system(file, "cannot be read", error),
        }
    }

    // The same of a name that leads to a folder.
    pub(crate) fn say_folder(&self, file: &[u8]) {
        self.say_unread(file, "it is a folder");
    }

    // The same of a name that leads to a FIFO, a device or a socket.
    pub(crate) fn say_no_file(&self, file: &[u8]) {
        self.say_unread(file, "it is not a file");
    }

    fn say_unread(&self, file: &[u8], why: &str) {
        let mut line = Line::<MESSAGE>::new();
        self.begin(&mut line);
        line.add_name(file);
        let _ = writeln!(line, " cannot be read: {why}");
        self.put(line.as_bytes());
    }

    // `NAME: FILE what: why` with the system's words for the error, also where the file's name fills the room of a
    // message.
    fn say_system(&self, file: &[u8], what: &str, error: Error) {
        let mut told = Line::<MESSAGE>::new();
        self.begin(&mut told);
        told.add_name(file);
        let _ = write!(told, " {what}");
        let mut line = Line::<WHOLE>::new();
        line.add_bytes(told.as_bytes());
        line.add_bytes(b": ");
        add_error(&mut line, error);
        line.add_bytes(b"\n");
        self.put(line.as_bytes());
    }

    // Says that standard input cannot be read, and why.
    pub fn no_input(&self, error: Error) {
        self.say_why(b"standard input", error);
    }

    // Says that standard output cannot be written, and why. Of a pipe whose reader has gone it says nothing.
    pub fn no_output(&self, error: Error) {
        if !matches!(error.kind(), ErrorKind::BrokenPipe) {
            self.say_system(b"standard output", "cannot be written", error);
        }
    }

    // Says that a name was too long to be a path.
    pub fn too_long(&self) {
        self.say("a name of more than 4,095 bytes cannot be read: it is too long");
    }

    // Writes to standard output, a line or lines in one write. Answers whether that was done; if not, says why.
    pub fn print(&self, text: &[u8]) -> bool {
        match self.rt.write_all(text) {
            Ok(()) => true,
            Err(error) => {
                self.no_output(error);
                false
            }
        }
    }

    // Prints the usage: `usage: NAME`, the words that the program takes, and behind them what it does.
    fn print_usage(&self, to: &impl Print, usage: Usage<'_>) -> Result<()> {
        let mut line = Line::<USAGE>::new();
        line.add_bytes(b"usage: ");
        line.add_bytes(self.name.as_bytes());
        let _ = writeln!(line, " {}", usage.words);
        to.write_all(line.as_bytes())?;
        for text in usage.meaning {
            to.write_all(text.as_bytes())?;
        }
        let mut told = Ok(());
        for text in usage.details {
            if let Err(error) = to.write_all(text.as_bytes()) {
                told = Err(error);
            }
        }
        told
    }

    // Prints the usage in place of work: for help on standard output; behind the message of wrong use on standard
    // error, or not at all where it cannot be written.
    pub fn show_usage(&self, why: NoWork, usage: Usage<'_>) -> Status
        ensures { (why ≡ Misuse → result ≡ Wrong) × (result ≡ Wrong → why ≡ Misuse) }
    {
        match why {
            NoWork::Help => match self.print_usage(&self.rt, usage) {
                Ok(()) => Status::Done,
                Err(error) => {
                    self.no_output(error);
                    Status::Failed
                }
            },
            NoWork::Misuse => {
                let _ = self.print_usage(&self.rt.messages(), usage);
                Status::Wrong
            }
        }
    }
}

// Adds the words for an error, without the number that Rattle writes behind the system's, as ` (os error N)`.
fn add_error(line: &mut Line<WHOLE>, error: Error) {
    let mut room = Line::<WORDS>::new();
    let _ = write!(room, "{error}");
    let words = room.as_bytes();
    let number = if error.raw_os_error().is_some() {
        number_of(words)
    } else {
        None
    };
    match number {
        Some(end) => line.add_bytes(&words[..end]),
        None => line.add_bytes(words),
    }
}

// Where the blank before the last `(` stands.
fn number_of(words: &[u8]) -> Option<usize>
    ensures { IfSome result (λ end. end ≤ length words.now) }
{
    let bracket = words.iter().rposition(|byte| *byte == b'(')?;
    Some(base::one_less(bracket))
}

#[cfg(test)]
mod tests {
    use super::*;
    use std::test::Fail;

    // Wrong use, with a usage whose texts are lent and whose list of lines lives no longer than this call.
    fn misuse(program: &Program<impl Desk>, words: &str, meaning: &str) -> Status {
        let usage = Usage {
            words,
            meaning: &[meaning],
            details: &[],
        };
        program.show_usage(NoWork::Misuse, usage)
    }

    #[test]
    fn any_text(rt: HostRuntime) -> std::result::Result<(), Fail> {
        let program = Program::called(rt, "front");
        let mut text = Line::<8>::new();
        text.add_bytes(b"text\n");
        let meaning = str::from_utf8(text.as_bytes())?;
        match u64::from(misuse(&program, "WORD", meaning)) {
            2 => Ok(()),
            _ => Err("wrong use is not told as wrong")?,
        }
    }
}
