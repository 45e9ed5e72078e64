// Reader and writer on the bounds of document 01, and of version 2 (wide); the moves from one version to the other
// (moves); the editions of version 2 (editions).
// Standard input is the largest archive of version 1, 16 sites and 255 sends, 1,864 bytes; run R stands here. `stdout`
// is typed from the documents: a line for each case, with the refusal number, 0 for none.
#![tactic(auto)]

ghost use Rattle.std.specs.Prelude.{◌≤◌, length};

mod editions;
mod moves;
mod rings;
mod wide;

use base::Refusal;
use std::fmt;
use std::fmt::{Display, Write as _};
use std::io::{Print, Read};
use types::Run;

// "Run R", byte by byte.
pub(crate) const R: [u8; 24] = [
    0x00, 0x18, 0x01, 0x01, 0x03, 0x01, 0x00, 0x00, 0x00, 0x01, 0x00, 0x02, 0x01, 0xFF, 0xFF, 0xFF,
    0xFF, 0x00, 0x00, 0x00, 0x00, 0x00, 0x00, 0x01,
];

// What a room is full of before it is lent.
const NINE: u8 = 9;

// ---- what is shown, a line each

// Where a text goes out piece by piece. A piece that cannot be written is lost, and those behind it are tried.
#[derive(Drop)]
struct Pieces<'a, P>(&'a P);

impl<P: Print> fmt::Write for Pieces<'_, P> {
    fn write_str(&mut self, text: &str) -> fmt::Result {
        let _ = self.0.write_all(text.as_bytes());
        Ok(())
    }
}

fn print_line(out: &impl Print, line: impl Display + Drop) {
    let _ = writeln!(Pieces(out), "{line}");
}

pub(crate) fn show_same(out: &impl Print, label: &str, is_same: bool) {
    let answer = if is_same { " yes\n" } else { " no\n" };
    let _ = write!(Pieces(out), "{label}{answer}");
}

fn show_number(out: &impl Print, label: &str, number: usize) {
    print_line(out, format_args!("{label} {number}"));
}

// The number of a refusal, 0 for none.
fn number<T: Copy>(answer: Result<T, Refusal>) -> u8 {
    match answer {
        Ok(_) => 0,
        Err(refusal) => u8::from(refusal),
    }
}

// How the reader judges a file.
pub(crate) fn show_check(out: &impl Print, label: &str, file: &[u8]) {
    print_line(
        out,
        format_args!("{label} {}", number(archive::check(file))),
    );
}

// The run that the reader hands over; for a file that it refuses the all-zero one, which a player starts from then.
fn run_in(read: Result<Run, Refusal>) -> Run {
    match read {
        Ok(run) => run,
        Err(_) => machine::start(&[], 0).run,
    }
}

pub(crate) fn run_of(file: &[u8]) -> Run {
    run_in(archive::read(file))
}

// Reads a file, and answers the run.
pub(crate) fn show_read(out: &impl Print, label: &str, file: &[u8]) -> Run {
    let read = archive::read(file);
    print_line(out, format_args!("{label} {}", number(read)));
    run_in(read)
}

// What the writer or a move answered.
pub(crate) fn show_written(
    out: &impl Print,
    label: impl Display + Drop,
    written: Result<usize, Refusal>,
) {
    let length = written.unwrap_or(0);
    print_line(
        out,
        format_args!("{label} {} length {length}", number(written)),
    );
}

// Lends a room of N nines and shows what is answered. Gives the room back as it was left.
pub(crate) fn lend<const N: usize, F: FnOnce(&mut [u8]) -> Result<usize, Refusal>>(
    out: &impl Print,
    label: impl Display + Drop,
    write: F,
) -> [u8; N]
    requires { F.IsAlwaysCallable write }
{
    let mut room = [NINE; N];
    show_written(out, label, write(&mut room));
    room
}

// Whether a file stands at the front of a room, and behind it nines.
pub(crate) fn is_at_front(file: &[u8], room: &[u8]) -> bool {
    room.strip_prefix(file)
        .is_some_and(|rest| rest.iter().all(|byte| *byte == NINE))
}

pub(crate) fn show_untouched(out: &impl Print, room: &[u8]) {
    show_same(out, "room as it was", is_at_front(&[], room));
}

// Changes of one byte, each alone: what it is called, the place of the byte and what it is made. How the reader judges
// the file with it.
pub(crate) fn show_changes<const N: usize>(
    out: &impl Print,
    file: [u8; N],
    changes: &[(&str, usize, u8)],
) {
    for (label, place, byte) in changes {
        let mut changed = file;
        if let Some(old) = changed.get_mut(*place) {
            *old = *byte;
        }
        show_check(out, label, &changed);
    }
}

// ---- version 1

fn lengths(out: &impl Print) {
    show_check(out, "24 bytes", &R);
    show_check(out, "23 bytes", &R[..23]);
    show_check(out, "12 bytes", &R[..12]);
    show_check(out, "no bytes", &[]);
    show_check(out, "65536 bytes", &io::large_buffer());
    show_changes(out, R, &[("length 25", 1, 25)]);
}

fn heads(out: &impl Print) {
    let changes = [
        ("version 2", 2, 2),
        ("S 0", 3, 0),
        ("S 16, 24 bytes", 3, 16),
        ("S 17", 3, 17),
        ("T 0", 4, 0),
        ("T 255", 4, 255),
        ("D 0", 5, 0),
        ("D 8", 5, 8),
        ("D 9", 5, 9),
        ("seed 0", 9, 0),
        ("N 2", 12, 2),
    ];
    show_changes(out, R, &changes);
}

fn bodies(out: &impl Print) {
    let changes = [
        ("channel 3", 13, 3),
        ("channel 4", 13, 4),
        ("route 1000", 17, 0x10),
        ("send at site 1", 21, 1),
        ("send to {}", 23, 0),
        ("send to {0,1}", 23, 3),
        ("send before draw 2", 20, 2),
        ("send before draw 3", 20, 3),
    ];
    show_changes(out, R, &changes);
}

// Run R written into rooms of 23, 24 and 26 nines.
fn rooms(out: &impl Print) {
    let run = show_read(out, "read R", &R);
    let short: [u8; 23] = lend(out, "room 23", |room| archive::write(run, room));
    show_untouched(out, &short);
    let enough: [u8; 24] = lend(out, "room 24", |room| archive::write(run, room));
    show_same(out, "the bytes of R", enough == R);
    let more: [u8; 26] = lend(out, "room 26", |room| archive::write(run, room));
    show_same(
        out,
        "the bytes of R, the rest as it was",
        is_at_front(&R, &more),
    );
}

// Runs that are not archives: more than 255 sends, seed 0, 17 sites, and which comes first.
fn writers(out: &impl Print) {
    let mut run = run_of(&R);
    let mut room = [NINE; 26];
    run.count = 256;
    show_written(out, "256 sends", archive::write(run, &mut room));
    run.count = usize::MAX;
    show_written(
        out,
        "18446744073709551615 sends",
        archive::write(run, &mut room),
    );
    run.seed = 0;
    show_written(out, "and seed 0", archive::write(run, &mut room));
    run.network.sites = 17;
    show_written(out, "and 17 sites", archive::write(run, &mut room));
    show_untouched(out, &room);
}

// The writer's own limits, each alone: run R with a depth and a number of sites.
fn limits(out: &impl Print) {
    let mut run = run_of(&R);
    let cases = [
        ("written with D 8", 8, 1),
        ("written with D 9", 9, 1),
        ("written with S 17", 1, 17),
    ];
    for (label, depth, sites) in cases {
        run.network.depth = depth;
        run.network.sites = sites;
        let mut room = [NINE; 24];
        show_written(out, label, archive::write(run, &mut room));
    }
}

// The largest archive, read, written again, and one byte short of room; and with 17 for its 16 sites.
fn largest(out: &impl Print, file: &[u8]) {
    show_number(out, "bytes", file.len());
    let run = show_read(out, "16 sites, 255 sends", file);
    show_number(out, "sites", run.network.sites);
    show_number(out, "sends", run.count);
    let short: [u8; 1863] = lend(out, "room 1863", |room| archive::write(run, room));
    show_untouched(out, &short);
    let mut room: [u8; 1864] = lend(out, "room 1864", |room| archive::write(run, room));
    show_same(out, "the same bytes", &room[..] == file);
    room[3] = 17;
    show_check(out, "17 sites", &room);
}

// Reads until the room is full, the input ends or a read fails. Answers how many bytes stand at its front.
fn read_full(input: &mut impl Read, room: &mut [u8]) -> usize
    ensures { result ≤ length room.new }
{
    let size = room.len();
    let mut rest = &mut room[..];
    let mut first = input.by_ref().take(size as u64);
    let _ = std::io::copy(&mut first, &mut rest);
    size.saturating_sub(rest.len())
}

fn main(rt: HostRuntime) {
    let out = &rt;
    lengths(out);
    heads(out);
    bodies(out);
    rooms(out);
    writers(out);
    limits(out);
    let mut buffer = io::large_buffer();
    let count = read_full(&mut rt.reader(), &mut buffer);
    largest(out, &buffer[..count]);
    wide::cases(out);
    moves::cases(out);
    editions::cases(out);
}
