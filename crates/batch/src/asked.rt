// What a batch is asked for: its options, in any order, and how many names its words have.
use front::{Desk, NoWork, Program, Words};

// The largest number that `--slice` takes: 19 digits.
const MOST: u64 = 9_999_999_999_999_999_999;

// The options of batch's own.
#[derive(Clone, Copy)]
pub enum Choice {
    Services,
    Zero,
    Unplayed,
    Slice,
}

impl Choice {
    // The option that a word is, if it is one; there is none behind `--`.
    pub fn of(words: &Words, word: &[u8]) -> Option<Choice> {
        if words.is_ended {
            return None;
        }
        match word {
            b"--services" => Some(Choice::Services),
            b"-0" => Some(Choice::Zero),
            b"--unplayed" => Some(Choice::Unplayed),
            b"--slice" => Some(Choice::Slice),
            _ => None,
        }
    }
}

// What ends a name: its line, of which a carriage return at the end is dropped, or a 0.
#[derive(Clone, Copy)]
pub enum End {
    Line,
    Zero,
}

impl End {
    pub fn byte(self) -> u8 {
        match self {
            End::Line => b'\n',
            End::Zero => 0,
        }
    }

    // The name that stands before the end.
    pub fn name_in(self, bytes: &[u8]) -> &[u8] {
        match self {
            End::Line => bytes.strip_suffix(b"\r").unwrap_or(bytes),
            End::Zero => bytes,
        }
    }
}

// The names of standard input of which so many are left out, and then so many played.
#[derive(Clone, Copy)]
pub struct Slice {
    pub skip: u64,
    pub left: u64,
}

// What the next word is: any, or the first or second number of `--slice A B`.
#[derive(Clone, Copy)]
enum Next {
    Word,
    Skip,
    Left(u64),
}

#[derive(Clone, Copy)]
pub struct Asked {
    pub services: bool,
    pub unplayed: bool,
    pub end: End,
    pub slice: Option<Slice>,
    pub words: Words,
    next: Next,
}

impl Asked {
    // What the words ask for.
    pub fn of(program: &Program<impl Desk>) -> Result<Asked, NoWork> {
        let mut asked = Asked {
            services: false,
            unplayed: false,
            end: End::Line,
            slice: None,
            words: Words::none(program)?,
            next: Next::Word,
        };
        let mut room = io::buffer();
        for i in program.words() {
            let n = program.word_at(i, &mut room);
            asked = asked.with(program, i, &room[..n])?;
        }
        asked.whole(program)
    }

    // One word more, argument i.
    fn with(self, program: &Program<impl Desk>, i: usize, word: &[u8]) -> Result<Asked, NoWork> {
        match self.next {
            Next::Word => self.with_word(program, i, word),
            Next::Skip => Ok(Asked {
                next: Next::Left(number_of(program, word)?),
                ..self
            }),
            Next::Left(skip) => Ok(Asked {
                slice: Some(Slice {
                    skip,
                    left: number_of(program, word)?,
                }),
                next: Next::Word,
                ..self
            }),
        }
    }

    fn with_word(
        self,
        program: &Program<impl Desk>,
        i: usize,
        word: &[u8],
    ) -> Result<Asked, NoWork> {
        let mut asked = self;
        match Choice::of(&self.words, word) {
            Some(Choice::Services) => asked.services = true,
            Some(Choice::Zero) => asked.end = End::Zero,
            Some(Choice::Unplayed) => asked.unplayed = true,
            Some(Choice::Slice) => asked.next = Next::Skip,
            None => asked.words = self.words.with(program, i, word)?,
        }
        Ok(asked)
    }

    // Behind the last word: whether the words fit together.
    fn whole(self, program: &Program<impl Desk>) -> Result<Asked, NoWork> {
        if !matches!(self.next, Next::Word) {
            return Err(program.misused("--slice wants two numbers"));
        }
        if self.slice.is_some() && self.words.names > 0 {
            return Err(program.misused("--slice takes its names from standard input"));
        }
        Ok(self)
    }
}

// A number of `--slice`.
fn number_of(program: &Program<impl Desk>, word: &[u8]) -> Result<u64, NoWork> {
    match parsed(word) {
        Some(number) => Ok(number),
        None => Err(program.misused("--slice wants two numbers")),
    }
}

// The number of a word of digits alone.
fn parsed(word: &[u8]) -> Option<u64> {
    if !word.iter().all(|byte| byte.is_ascii_digit()) {
        return None;
    }
    let number = std::str::from_utf8(word).ok()?.parse::<u64>().ok()?;
    (number <= MOST).then_some(number)
}
