// One file of a batch: read, played, counted, and told in one line, which goes out by one write.
use base::Refusal;
use front::{Desk, Line, Program};
use machine::PlayAnswer;
use std::fmt;
use std::fmt::Write as _;
use types::Counts;

// Room for a line: a name of 4,096 bytes at its longest, and an answer.
pub const LINE: usize = 16512;

// Why no more names are played: all that are asked for are, something could not be printed, or standard input could not
// be read.
#[derive(Clone, Copy)]
pub enum Stop {
    Enough,
    Lost,
    Cut,
}

// Files so far.
#[derive(Clone, Copy, Default)]
pub struct Totals {
    pub files: u64,
    pub played: u64,
    pub refused: u64,
    pub unreadable: u64,
}

impl fmt::Display for Totals {
    fn fmt<W: fmt::Write>(&self, f: &mut fmt::Formatter<W>) -> fmt::Result {
        let Totals {
            files,
            played,
            refused,
            unreadable,
        } = *self;
        write!(
            f,
            "files {files} played {played} refused {refused} unreadable {unreadable}"
        )
    }
}

impl Totals {
    // Plays the file of this name. (The line is one for all names, here and below: its room is large.)
    pub fn play(
        &mut self,
        program: &Program<impl Desk>,
        line: &mut Line<LINE>,
        name: &[u8],
        services: bool,
    ) -> Result<(), Stop> {
        let mut bytes = io::large_buffer();
        let Some(count) = program.read_file(name, &mut bytes) else {
            return self.tell(program, line, name, "cannot be read");
        };
        let mut book = [0u8; report::BOOK];
        let played = words::play(&bytes[..count], &mut book);
        self.count(played);
        let shown = match played {
            Ok(counts) if services => counts.serviced,
            _ => 0,
        };
        if let Err(error) = report::print_services(&program.rt, &book, shown) {
            program.no_output(error);
            return Err(Stop::Lost);
        }
        line.clear();
        line.add_name(name);
        line.add_bytes(b": ");
        let answer = PlayAnswer::from(played);
        line.add_answer(answer.refusal, answer.counts);
        print(program, line.as_bytes())
    }

    // The last part of a name that is longer than a path can be.
    pub fn tell_long(
        &mut self,
        program: &Program<impl Desk>,
        line: &mut Line<LINE>,
        name: &[u8],
    ) -> Result<(), Stop> {
        program.too_long();
        self.tell(program, line, name, "cannot be read")
    }

    // The line of a name of which nothing was played.
    pub fn tell(
        &mut self,
        program: &Program<impl Desk>,
        line: &mut Line<LINE>,
        name: &[u8],
        words: &str,
    ) -> Result<(), Stop> {
        self.files = self.files.saturating_add(1);
        self.unreadable = self.unreadable.saturating_add(1);
        line.clear();
        line.add_name(name);
        let _ = writeln!(line, ": {words}");
        print(program, line.as_bytes())
    }

    // One file more that was played or refused.
    fn count(&mut self, played: Result<Counts, Refusal>) {
        self.files = self.files.saturating_add(1);
        match played {
            Ok(_) => self.played = self.played.saturating_add(1),
            Err(_) => self.refused = self.refused.saturating_add(1),
        }
    }
}

// Prints a part of a long name.
pub fn print_part(
    program: &Program<impl Desk>,
    line: &mut Line<LINE>,
    name: &[u8],
) -> Result<(), Stop> {
    line.clear();
    line.add_name(name);
    print(program, line.as_bytes())
}

fn print(program: &Program<impl Desk>, line: &[u8]) -> Result<(), Stop> {
    if program.print(line) {
        Ok(())
    } else {
        Err(Stop::Lost)
    }
}
