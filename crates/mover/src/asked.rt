// The words that `mover` is called with: the first name among them is the way, the second the file.
use front::{Desk, NoWork, Program, Words};

// To version 2, or to version 1.
#[derive(Clone, Copy, PartialEq, Eq)]
pub enum Way {
    Over,
    Back,
}

// What the words ask for: the way, and the argument that names the file, if there is one.
#[derive(Clone, Copy)]
pub struct Asked {
    pub way: Way,
    pub file: Option<usize>,
}

impl Asked {
    pub fn of(program: &Program<impl Desk>) -> Result<Asked, NoWork> {
        let mut sorted = Sorted {
            way: None,
            words: Words::none(program)?,
        };
        let mut room = io::buffer();
        for i in program.words() {
            let n = program.word_at(i, &mut room);
            sorted = sorted.with(program, i, &room[..n])?;
        }
        let Some(way) = sorted.way else {
            return Err(program.misused("the first word is over or back"));
        };
        if sorted.words.names > 2 {
            return Err(program.misused("mover takes one file"));
        }
        Ok(Asked {
            way,
            file: if sorted.words.names == 2 {
                sorted.words.last
            } else {
                None
            },
        })
    }
}

// The words so far; the way is none where the first name says none, or there is no name.
#[derive(Clone, Copy)]
struct Sorted {
    way: Option<Way>,
    words: Words,
}

impl Sorted {
    // With one more word, argument i.
    fn with(self, program: &Program<impl Desk>, i: usize, word: &[u8]) -> Result<Sorted, NoWork> {
        let words = self.words.with(program, i, word)?;
        let is_first = self.words.names == 0 && words.names == 1;
        Ok(Sorted {
            way: if is_first { way_of(word) } else { self.way },
            words,
        })
    }
}

fn way_of(word: &[u8]) -> Option<Way> {
    match word {
        b"over" => Some(Way::Over),
        b"back" => Some(Way::Back),
        _ => None,
    }
}
