// The words that `quote` is called with: options, and the numbers t, L, D, n and W in this order. A word is an option
// if it begins with two dashes; every other, `-3` too, is taken for a number, and so is every word behind `--`.
use crate::number::{NUMBERS, with_number};
use front::{Desk, NoWork, Program, Words};

// The longest argument that Linux passes where pages have 4,096 bytes, with the 0 that ends it.
const ARGUMENT: usize = 131072;

// What the words ask for. Of more than five numbers the first five are kept.
#[derive(Clone, Copy)]
pub struct Asked {
    pub doubled: bool,
    pub numbers: [u64; NUMBERS],
    words: Words,
}

impl Asked {
    pub fn of(program: &Program<impl Desk>) -> Result<Asked, NoWork> {
        let nothing = Asked {
            doubled: false,
            numbers: [0; NUMBERS],
            words: Words::none(program)?,
        };
        let asked = nothing.with_all(program)?;
        if asked.words.names != NUMBERS {
            return Err(program.misused("latency takes five numbers: t L D n W"));
        }
        Ok(asked)
    }

    // With all words.
    fn with_all(self, program: &Program<impl Desk>) -> Result<Asked, NoWork> {
        let mut room = [0u8; ARGUMENT];
        let mut asked = self;
        for i in program.words() {
            let n = program.word_at(i, &mut room);
            asked = asked.with(program, i, whole(&room[..n]))?;
        }
        Ok(asked)
    }

    // With one more word, argument i: `--doubled`, what the programs share, or a number. To `Words` one that does not
    // begin with two dashes is as good as the empty word, a name.
    fn with(self, program: &Program<impl Desk>, i: usize, word: &[u8]) -> Result<Asked, NoWork> {
        let mut asked = self;
        if !self.words.is_ended && word == b"--doubled".as_slice() {
            asked.doubled = true;
            return Ok(asked);
        }
        let sorted: &[u8] = if word.starts_with(b"--") { word } else { b"" };
        asked.words = self.words.with(program, i, sorted)?;
        if asked.words.names != self.words.names {
            asked.numbers = with_number(self.numbers, self.words.names, word);
        }
        Ok(asked)
    }
}

// A word that fills the room may have been cut, and is taken for the empty one, which is no number.
fn whole(word: &[u8]) -> &[u8] {
    if word.len() < ARGUMENT { word } else { b"" }
}
