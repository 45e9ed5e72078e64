// A site from its numbers, in the order of docs/TESTING.md: five net-inputs of 11, the net-outputs 0 to 4 of 6, of
// which the first is 1 for one in use and 2 more for the mark closing, the out-queue and the in-queue with a count and
// eight entries of 3 each; behind these 135 what the split output brings: for each net-input whether it is connected to
// that output, the output, and its in-queue. Numbers that no field can hold are cut to it, and those that are missing
// are 0.
ghost use Rattle.std.specs.Prelude.{◌≡◌, ◌%◌};

use std::array;
use types::{
    Connection, InEntry, InQueue, Input, OutEntry, OutQueue, Output, Phase, Received, Site,
    Terminator,
};

// The lowest byte, and the lowest two: `%` cuts what `as`, which loses no bits here, would not pass.
pub(crate) fn byte_of(n: u64) -> u8
    ensures { result ≡ n % 256 }
{
    (n % 256) as u8
}

pub(crate) fn short_of(n: u64) -> u16
    ensures { result ≡ n % 65536 }
{
    (n % 65536) as u16
}

fn connection_of(n: u64) -> Connection {
    match n {
        2 => Connection::Passthru,
        3 => Connection::AllRemote,
        4 => Connection::SomeLocal,
        5 => Connection::Handed,
        6 => Connection::Branch,
        _ => Connection::Unicast,
    }
}

fn received_of(n: u64) -> Received {
    match n {
        2 => Received::Abort,
        _ => Received::End,
    }
}

fn terminator_of(n: u64) -> Terminator {
    match n {
        1 => Terminator::End,
        2 => Terminator::Abort,
        3 => Terminator::KeepLocal,
        _ => Terminator::None,
    }
}

fn phase_of(state: u64, connection: Connection, received: Received) -> Phase {
    match state {
        1 => Phase::Seek,
        2 => Phase::Open(connection),
        3 => Phase::Wait(connection),
        4 => Phase::Done(connection, received),
        5 => Phase::Last(connection, received),
        6 => Phase::Abort(connection),
        7 => Phase::FinAbort(connection, received),
        _ => Phase::Free,
    }
}

// The numbers that are still to be read.
#[derive(Clone, Copy)]
struct Numbers<'a>(&'a [u64]);

impl Numbers<'_> {
    fn next(&mut self) -> u64 {
        match self.0.split_first() {
            Some((first, others)) => {
                self.0 = others;
                *first
            }
            None => 0,
        }
    }

    fn byte(&mut self) -> u8 {
        byte_of(self.next())
    }

    fn mark(&mut self) -> bool {
        self.next() == 1
    }

    fn input(&mut self) -> Input {
        let phase = self.phase();
        let packet = self.byte();
        let set = self.next();
        let mut outputs = [false; base::OUTPUTS];
        for is_connected in &mut outputs[..base::SPLIT_PORT] {
            *is_connected = self.mark();
        }
        let tries = self.byte();
        Input {
            set,
            phase,
            outputs,
            packet,
            tries,
        }
    }

    fn phase(&mut self) -> Phase {
        let state = self.next();
        let connection = connection_of(self.next());
        let received = received_of(self.next());
        phase_of(state, connection, received)
    }

    fn output(&mut self) -> Output {
        let marks = self.next();
        let packet = self.byte();
        let set = self.next();
        let input = self.byte();
        let head = self.mark();
        let terminator = terminator_of(self.next());
        Output {
            set,
            terminator,
            packet,
            input,
            used: marks % 2 == 1,
            head,
            closing: marks / 2 % 2 == 1,
        }
    }

    // The count of a queue and its entries.
    fn queue<E: Entry>(&mut self) -> (usize, [E; base::QUEUE]) {
        let count = self.next() as usize;
        (count, array::from_fn(|_| E::read(self)))
    }

    fn out_queue(&mut self) -> OutQueue {
        let (count, entries) = self.queue();
        OutQueue { entries, count }
    }

    fn in_queue(&mut self) -> InQueue {
        let (count, entries) = self.queue();
        InQueue { entries, count }
    }
}

// An entry of a queue.
trait Entry {
    fn read(numbers: &mut Numbers<'_>) -> Self;
}

impl Entry for OutEntry {
    fn read(numbers: &mut Numbers<'_>) -> Self {
        let packet = numbers.byte();
        let set = numbers.next();
        let started = numbers.mark();
        OutEntry {
            set,
            packet,
            started,
        }
    }
}

impl Entry for InEntry {
    fn read(numbers: &mut Numbers<'_>) -> Self {
        let packet = numbers.byte();
        let set = numbers.next();
        let terminator = terminator_of(numbers.next());
        InEntry {
            set,
            terminator,
            packet,
        }
    }
}

pub(crate) fn site_of(numbers: &[u64]) -> Site {
    let mut numbers = Numbers(numbers);
    let mut inputs: [Input; base::INPUTS] = array::from_fn(|_| numbers.input());
    let ports: [Output; base::SPLIT_PORT] = array::from_fn(|_| numbers.output());
    let outgoing = numbers.out_queue();
    let first = numbers.in_queue();
    for input in &mut inputs {
        input.outputs[base::SPLIT_PORT] = numbers.mark();
    }
    let split = numbers.output();
    let second = numbers.in_queue();
    Site {
        inputs,
        outputs: array::from_fn(|port| ports.get(port).copied().unwrap_or(split)),
        outgoing,
        incoming: [first, second],
    }
}
