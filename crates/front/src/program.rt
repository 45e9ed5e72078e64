// A program as it was called: `PROGRAM [--front NAME] WORDS..`. Behind `--front` messages begin with NAME, and at its
// end the program writes a line of numbers to descriptor 3, the first of them its status.
ghost use Rattle.std.specs.Prelude.{◌≡◌, cond};
ghost use Rattle.io.specs.Counts.{IsPrefixLen as Front};

use crate::desk::Desk;
use crate::line::Line;
use std::env::FillError;
use std::fmt::{Display, Write};
use std::ops::Range;
use std::rt::Env;

// Room for the name that messages begin with.
const NAME: usize = 64;
// The descriptor of the line of numbers, and room for it.
const NUMBERS: i32 = 3;

const NUMBERS_ROOM: usize = 128;

// The system; the name that messages begin with; whether the front called; the number of the first word of the
// program's own.
#[derive(Drop)]
pub struct Program<R> {
    pub rt: R,
    pub(crate) name: Line<NAME>,
    is_fronted: bool,
    pub(crate) first: usize,
}

impl<R: Desk> Program<R> {
    // The program of this name, as it was called. Its messages begin with NAME, or with its own name where NAME is
    // empty or does not fit.
    pub fn called(rt: R, own: &str) -> Self
        ensures { result.first ≡ cond result.is_fronted 3 1 }
    {
        let is_fronted = is_word(&rt, 1, "--front");
        let given = if is_fronted { name_at(&rt, 2) } else { None };
        let name = match given {
            Some(name) => name,
            None => line_of(own.as_bytes()),
        };
        Program {
            rt,
            name,
            is_fronted,
            first: if is_fronted { 3 } else { 1 },
        }
    }

    // Whether the front called.
    pub fn is_fronted(&self) -> bool {
        self.is_fronted
    }

    // Whether `--front` came without a name.
    pub(crate) fn lacks_name(&self) -> bool {
        arg_count(&self.rt) < self.first
    }

    // Whether the name that messages begin with ends with this command of the front.
    pub fn is_command(&self, command: &str) -> bool {
        self.name.as_bytes().ends_with(command.as_bytes())
    }

    // Writes the answer as the line of numbers, if the front asked for it.
    pub fn tell<A: Display + Drop>(&self, answer: A) {
        if self.is_fronted {
            let mut line = Line::<NUMBERS_ROOM>::new();
            let _ = writeln!(line, "{answer}");
            io::write_all(NUMBERS, line.as_bytes());
        }
    }

    // The numbers of the words of the program's own.
    pub fn words(&self) -> Range<usize>
        ensures { result.start ≡ self.now.first }
    {
        self.first..arg_count(&self.rt)
    }

    // Puts word i at the front of the room, or of one that is too long its first bytes. Answers how many they are. (The
    // programs go through their words by `for`: a function that takes a closure for each would have a `requires`.)
    pub fn word_at(&self, i: usize, room: &mut [u8]) -> usize
        ensures { Front result room.new }
    {
        match self.rt.arg(i, room) {
            Ok(n) => n,
            Err(FillError::TooLong) => room.len(),
            Err(FillError::NotPresent) => 0,
        }
    }
}

// A line of these bytes.
fn line_of(bytes: &[u8]) -> Line<NAME> {
    let mut line = Line::new();
    line.add_bytes(bytes);
    line
}

// Argument i, unless there is none, it is empty or it does not fit.
fn name_at(rt: &impl Env, i: usize) -> Option<Line<NAME>> {
    let mut room = [0u8; NAME];
    match rt.arg(i, &mut room) {
        Ok(0) | Err(_) => None,
        Ok(n) => Some(line_of(&room[..n])),
    }
}

// Whether argument i is this word, of at most 16 bytes.
fn is_word(rt: &impl Env, i: usize, word: &str) -> bool {
    let mut room = [0u8; 16];
    match rt.arg(i, &mut room) {
        Ok(n) => &room[..n] == word.as_bytes(),
        Err(_) => false,
    }
}

// How many arguments there are, the program's own name among them.
pub fn arg_count(rt: &impl Env) -> usize {
    (0..usize::MAX)
        .find(|i| !has_argument(rt, *i))
        .unwrap_or(usize::MAX)
}

fn has_argument(rt: &impl Env, i: usize) -> bool {
    let mut room = [0u8; 1];
    !matches!(rt.arg(i, &mut room), Err(FillError::NotPresent))
}
