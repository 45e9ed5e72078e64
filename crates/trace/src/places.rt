// What is seen of a state's places in its words. All use of the layout (crate layout, specs/Layout.antt and
// Packed.antt) is here. Every method takes any words and any numbers: words that are not there read as 0, and a number
// beyond its range stands for its remainder.
ghost use Rattle.std.specs.Prelude.{◌<◌};

use layout::{ARRIVED_FROM, COUNTS_FROM, LEAVING_FROM, OUTPUTS_FROM, SITE_PLACES};
use std::fmt;
use types::{Connection, Terminator};

// The state of a net-input, without what `types::Phase` has beside it.
#[derive(Clone, Copy, PartialEq, Eq)]
pub enum State {
    Free,
    Seek,
    Open,
    Wait,
    Done,
    Last,
    Abort,
    FinAbort,
}

impl From<u64> for State {
    fn from(number: u64) -> State {
        match number % 8 {
            0 => State::Free,
            1 => State::Seek,
            2 => State::Open,
            3 => State::Wait,
            4 => State::Done,
            5 => State::Last,
            6 => State::Abort,
            _ => State::FinAbort,
        }
    }
}

impl fmt::Display for State {
    fn fmt<W: fmt::Write>(&self, f: &mut fmt::Formatter<W>) -> fmt::Result {
        f.write_str(match self {
            State::Free => "free",
            State::Seek => "seek",
            State::Open => "open",
            State::Wait => "wait",
            State::Done => "done",
            State::Last => "last",
            State::Abort => "abort",
            State::FinAbort => "fin-abort",
        })
    }
}

// A connection or a terminator, displayed by its word.
#[derive(Clone, Copy)]
pub struct Word<T>(T);

impl fmt::Display for Word<Option<Connection>> {
    fn fmt<W: fmt::Write>(&self, f: &mut fmt::Formatter<W>) -> fmt::Result {
        f.write_str(match self.0 {
            None => "none",
            Some(Connection::Unicast) => "unicast",
            Some(Connection::Passthru) => "passthru",
            Some(Connection::AllRemote) => "all-remote",
            Some(Connection::SomeLocal) => "some-local",
            Some(Connection::Handed) => "handed",
            Some(Connection::Branch) => "split",
        })
    }
}

impl fmt::Display for Word<Terminator> {
    fn fmt<W: fmt::Write>(&self, f: &mut fmt::Formatter<W>) -> fmt::Result {
        f.write_str(match self.0 {
            Terminator::None => "none",
            Terminator::End => "end",
            Terminator::Abort => "abort",
            Terminator::KeepLocal => "keep-local",
        })
    }
}

// The connection of this number; 0 is none.
fn connection_of(number: u64) -> Option<Connection> {
    match number {
        1 => Some(Connection::Unicast),
        2 => Some(Connection::Passthru),
        3 => Some(Connection::AllRemote),
        4 => Some(Connection::SomeLocal),
        5 => Some(Connection::Handed),
        6 => Some(Connection::Branch),
        _ => None,
    }
}

// The terminator of this number.
fn terminator_of(number: u64) -> Terminator {
    match number % 4 {
        0 => Terminator::None,
        1 => Terminator::End,
        2 => Terminator::Abort,
        _ => Terminator::KeepLocal,
    }
}

// A net-input: bit j of the marks is connected output j.
#[derive(Clone, Copy)]
pub struct Input {
    pub state: State,
    pub connection: Word<Option<Connection>>,
    pub marks: u64,
    pub packet: u64,
    pub tries: u64,
}

// A net-output: its set, whether its head is taken and whether it is closing, its terminator and packet, and the
// net-input that feeds it.
#[derive(Clone, Copy)]
pub struct Output {
    pub set: u64,
    pub has_head: bool,
    pub is_closing: bool,
    pub terminator: Word<Terminator>,
    pub packet: u64,
    pub feeder: usize,
}

// An out-queue: its count, its front, and the set of its last entry.
#[derive(Clone, Copy)]
pub struct Leaving {
    pub count: u64,
    pub has_started: bool,
    pub packet: u64,
    pub last: u64,
}

// A state in its words.
#[derive(Clone, Copy)]
pub struct Places<'a>(pub &'a [u64]);

impl Places<'_> {
    // The first word of place k of site s, its set.
    fn set(self, s: usize, k: usize) -> u64 {
        self.word(2 * place_of(s, k))
    }

    // The second, which has its small fields.
    fn fields(self, s: usize, k: usize) -> u64 {
        self.word(2 * place_of(s, k) + 1)
    }

    fn word(self, i: usize) -> u64 {
        self.0.get(i).copied().unwrap_or(0)
    }

    // Net-input i of site s.
    pub fn input(self, s: usize, i: usize) -> Input {
        let fields = self.fields(s, i);
        Input {
            state: State::from(fields),
            connection: Word(connection_of(fields / 8 % 8)),
            marks: fields / 256 % 64,
            packet: fields / 65536 % 256,
            tries: fields / 16777216 % 256,
        }
    }

    // Net-output j of site s.
    pub fn output(self, s: usize, j: usize) -> Output {
        let k = OUTPUTS_FROM + j % base::OUTPUTS;
        let fields = self.fields(s, k);
        Output {
            set: self.set(s, k),
            has_head: fields / 2 % 2 == 1,
            is_closing: fields / 16 % 2 == 1,
            terminator: Word(terminator_of(fields / 4)),
            packet: fields / 65536 % 256,
            feeder: (fields / 256 % 256) as usize,
        }
    }

    // The out-queue of site s.
    pub fn leaving(self, s: usize) -> Leaving {
        let count = self.set(s, COUNTS_FROM);
        let fields = self.fields(s, LEAVING_FROM);
        let last = base::one_less(count as usize) % base::QUEUE;
        Leaving {
            count,
            has_started: fields % 2 == 1,
            packet: fields / 256 % 256,
            last: self.set(s, LEAVING_FROM + last),
        }
    }

    // The packet of the front of in-queue m of site s.
    pub fn arrived(self, s: usize, m: usize) -> u64 {
        self.fields(s, ARRIVED_FROM + base::QUEUE * (m % base::IN_QUEUES)) / 256 % 256
    }
}

// Place k of site s among those of all sites.
fn place_of(s: usize, k: usize) -> usize
    ensures { result < 131072 }
{
    SITE_PLACES * (s % base::SITES) + k % SITE_PLACES
}
