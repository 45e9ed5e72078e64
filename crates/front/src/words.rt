// The words of a program: names and options. `--` ends the options, and a word that begins with `-` before it, if it
// has a second byte, is one.
use crate::desk::Desk;
use crate::program::Program;

// Why a program does no work: help is asked for, or its use is wrong, which is said.
#[derive(Clone, Copy, PartialEq, Eq)]
pub enum NoWork {
    Help,
    Misuse,
}

// The words so far: how many names, which argument the last of them is, whether `--` has come.
#[derive(Clone, Copy)]
pub struct Words {
    pub names: usize,
    pub last: Option<usize>,
    pub is_ended: bool,
}

impl Words {
    // The words of a program that has no options of its own. What comes behind a call for help or a wrong word is not
    // looked at.
    pub fn of(program: &Program<impl Desk>) -> Result<Words, NoWork> {
        let mut words = Words::none(program)?;
        let mut room = io::buffer();
        for i in program.words() {
            let n = program.word_at(i, &mut room);
            words = words.with(program, i, &room[..n])?;
        }
        Ok(words)
    }

    // No word yet. `--front` without a name is wrong.
    pub fn none(program: &Program<impl Desk>) -> Result<Words, NoWork> {
        if program.lacks_name() {
            return Err(program.misused("--front wants a name"));
        }
        Ok(Words {
            names: 0,
            last: None,
            is_ended: false,
        })
    }

    // The words with one more, argument i: a name, `--`, `--help`, or an option that there is not.
    pub fn with(
        self,
        program: &Program<impl Desk>,
        i: usize,
        word: &[u8],
    ) -> Result<Words, NoWork> {
        if self.is_ended || !is_option(word) {
            return Ok(Words {
                names: self.names.wrapping_add(1),
                last: Some(i),
                ..self
            });
        }
        match word {
            b"--" => Ok(Words {
                is_ended: true,
                ..self
            }),
            b"--help" => Err(NoWork::Help),
            _ => {
                program.say_word("there is no option ", word);
                Err(NoWork::Misuse)
            }
        }
    }
}

fn is_option(word: &[u8]) -> bool {
    matches!(word, [b'-', _, ..])
}
