// The names of a batch, from the arguments or from standard input, each played as it comes.
use crate::asked::{Asked, Choice, End, Slice};
use crate::one::{LINE, Stop, Totals, print_part};
use front::{Desk, Line, Program, Words};
use std::io::Read;

// The longest argument that Linux passes, with the 0 that ends it.
const ARGUMENT: usize = 131072;
// Room for a name: more than a path can have.
const NAME: usize = 4096;
// Where no slice is asked for: no run has so many names.
const ALL: Slice = Slice {
    skip: 0,
    left: u64::MAX,
};

// A name as it comes. Of one that is long, more than a path can have, only the last part is held: what came before is
// printed already.
#[derive(Clone, Copy)]
struct Name {
    part: Line<NAME>,
    is_long: bool,
}

impl Name {
    fn new() -> Self {
        Name {
            part: Line::new(),
            is_long: false,
        }
    }

    // No byte of the next name has come.
    fn clear(&mut self) {
        self.part.clear();
        self.is_long = false;
    }

    // The next part of a long name is to come.
    fn go_on(&mut self) {
        self.part.clear();
        self.is_long = true;
    }

    fn is_empty(&self) -> bool {
        self.part.as_bytes().is_empty() && !self.is_long
    }

    fn is_full(&self) -> bool {
        self.part.as_bytes().len() == NAME
    }
}

// Names met so far: what is asked for, the present one, which are left out yet and may be played, the line that is told of one,
// and what was played.
#[derive(Drop)]
pub struct Names {
    asked: Asked,
    name: Name,
    slice: Slice,
    line: Line<LINE>,
    pub totals: Totals,
}

impl Names {
    pub fn new(asked: Asked) -> Self {
        Names {
            asked,
            name: Name::new(),
            slice: asked.slice.unwrap_or(ALL),
            line: Line::new(),
            totals: Totals::default(),
        }
    }

    // ---- from the arguments

    // Plays the files that the words name, which are sorted again. An argument has no 0, and is taken as it is. (Called, and not
    // put into its caller: its room is no part of the stack where the names come from standard input.)
    #[inline(never)]
    pub fn take_arguments(&mut self, program: &Program<impl Desk>) -> Result<(), Stop> {
        self.asked.end = End::Zero;
        let Ok(mut words) = Words::none(program) else {
            return Ok(());
        };
        let mut argument = [0u8; ARGUMENT];
        for i in program.words() {
            let n = program.word_at(i, &mut argument);
            words = self.take_argument(program, i, &argument[..n], words)?;
        }
        Ok(())
    }

    // Argument i; of one longer than the room only its first bytes are known.
    fn take_argument(
        &mut self,
        program: &Program<impl Desk>,
        i: usize,
        argument: &[u8],
        words: Words,
    ) -> Result<Words, Stop> {
        if Choice::of(&words, argument).is_some() {
            return Ok(words);
        }
        let Ok(more) = words.with(program, i, argument) else {
            return Ok(words);
        };
        if more.names != words.names {
            self.take_chunk(program, argument)?;
            self.end_name(program)?;
        }
        Ok(more)
    }

    // ---- from standard input

    // Plays the files that standard input names. The last name may lack its end. A proved loop has to end, and nothing
    // says that the input does, so the turns are so many that no run uses them up.
    pub fn take_input(&mut self, program: &Program<impl Desk>) -> Result<(), Stop> {
        let mut input = program.rt.reader();
        for _ in 0..u64::MAX {
            let mut chunk = io::buffer();
            match input.read(&mut chunk) {
                Ok(0) => return self.end_input(program),
                Ok(n) => self.take_chunk(program, &chunk[..n])?,
                Err(error) => {
                    program.no_input(error);
                    return Err(Stop::Cut);
                }
            }
        }
        Ok(())
    }

    fn end_input(&mut self, program: &Program<impl Desk>) -> Result<(), Stop> {
        if self.name.is_empty() {
            return Ok(());
        }
        self.end_name(program)
    }

    // ---- byte by byte

    fn take_chunk(&mut self, program: &Program<impl Desk>, chunk: &[u8]) -> Result<(), Stop> {
        if self.slice.left == 0 {
            return Err(Stop::Enough);
        }
        for byte in chunk {
            self.take_byte(program, *byte)?;
        }
        Ok(())
    }

    fn take_byte(&mut self, program: &Program<impl Desk>, byte: u8) -> Result<(), Stop> {
        if byte == self.asked.end.byte() {
            return self.end_name(program);
        }
        if self.name.is_full() {
            self.spill(program)?;
        }
        self.name.part.add_bytes(&[byte]);
        Ok(())
    }

    // A full room is printed, to be filled anew: so long a name cannot be read.
    fn spill(&mut self, program: &Program<impl Desk>) -> Result<(), Stop> {
        if self.slice.skip == 0 {
            print_part(program, &mut self.line, self.name.part.as_bytes())?;
        }
        self.name.go_on();
        Ok(())
    }

    // The present name is complete.
    fn end_name(&mut self, program: &Program<impl Desk>) -> Result<(), Stop> {
        if self.slice.skip > 0 {
            self.slice.skip -= 1;
            self.name.clear();
            return Ok(());
        }
        self.slice.left = self.slice.left.saturating_sub(1);
        self.play(program)?;
        self.name.clear();
        match self.slice.left {
            0 => Err(Stop::Enough),
            _ => Ok(()),
        }
    }

    // Plays the file that the present name names, or says why not.
    fn play(&mut self, program: &Program<impl Desk>) -> Result<(), Stop> {
        let bytes = self.asked.end.name_in(self.name.part.as_bytes());
        if self.asked.unplayed {
            self.totals
                .tell(program, &mut self.line, bytes, "not played")
        } else if self.name.is_long {
            self.totals.tell_long(program, &mut self.line, bytes)
        } else {
            self.totals
                .play(program, &mut self.line, bytes, self.asked.services)
        }
    }
}
