// One file: read, written back and compared, and what came of it.
ghost use Rattle.std.specs.Prelude.{IfSome};
ghost use Rattle.io.specs.Counts.{IsPrefixLen as Front};

use base::Refusal;
use std::fmt::Display;
use std::fs::File;
use std::io::Print;
use std::rt::Files;
use types::Run;

// What a room is filled with before the writer gets it.
const FILL: u8 = 165;

// The same bytes came back, so many; the reader refused them, with this number; what came back differs; the file cannot
// be read.
#[derive(Clone, Copy)]
pub enum Outcome {
    Same(usize),
    Refused(Refusal),
    Differs,
    Unreadable,
}

impl Outcome {
    // Prints what stands behind a name, piece by piece. Answers whether all was written.
    pub fn print(self, out: &impl Print) -> bool {
        match self {
            Outcome::Same(length) => put(out, ": same ") & put(out, length) & put(out, " bytes\n"),
            Outcome::Refused(refusal) => {
                put(out, ": ") & report::print_refusal(out, u8::from(refusal)).is_ok()
            }
            Outcome::Differs => put(out, ": DIFFERS\n"),
            Outcome::Unreadable => put(out, ": cannot be read\n"),
        }
    }
}

// Prints a piece of a line, by one write. Answers whether that was done. (A piece is tried also behind one that could not be
// written, so that as much goes out as can.)
pub fn put(out: &impl Print, piece: impl Display + Drop) -> bool {
    out.print(piece).is_ok()
}

// Reads the file of this name and judges its bytes.
pub fn outcome_of(rt: &impl Files, name: &[u8]) -> Outcome {
    let mut bytes = io::large_buffer();
    match read_named(rt, name, &mut bytes) {
        Some(count) => judge(&bytes[..count]),
        None => Outcome::Unreadable,
    }
}

// Opens the file of this name, UTF-8 text, and reads it, as far as the room goes.
fn read_named(rt: &impl Files, name: &[u8], room: &mut [u8]) -> Option<usize>
    ensures { IfSome result (λ count. Front count room.new) }
{
    let path = std::str::from_utf8(name).ok()?;
    let mut file = File::open(rt, path).ok()?;
    report::read_seen(&mut file, room).ok()
}

fn judge(bytes: &[u8]) -> Outcome {
    match archive::read(bytes) {
        Ok(run) if needs_room(run, bytes.len()) && comes_back(run, bytes) => Outcome::Same(
            bytes.len(),
        ),
        Ok(_) => Outcome::Differs,
        Err(refusal) => Outcome::Refused(refusal),
    }
}

// Whether the run is written as these bytes, and the room behind them stays as it was.
fn comes_back(run: Run, bytes: &[u8]) -> bool {
    let mut room = [FILL; format::LONGEST];
    let written = archive::write(run, &mut room);
    written.ok() == Some(bytes.len())
        && room.strip_prefix(bytes).is_some_and(|rest| is_filled(rest))
}

// Whether a room one byte below the length is refused with 14 and stays as it was.
fn needs_room(run: Run, length: usize) -> bool {
    let mut room = [FILL; format::LONGEST];
    if !(1..=format::LONGEST).contains(&length) {
        return false;
    }
    let written = archive::write(run, &mut room[..length - 1]);
    matches!(written, Err(Refusal::Room)) && is_filled(&room)
}

fn is_filled(room: &[u8]) -> bool {
    room.iter().all(|byte| *byte == FILL)
}
