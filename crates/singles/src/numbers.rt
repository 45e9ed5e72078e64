// The numbers of a site, in the order of docs/TESTING.md (see site.rt).
use crate::form::NUMBERS;
use types::{
    Connection, InEntry, InQueue, Input, OutEntry, OutQueue, Output, Phase, Received, Site,
};

// The numbers so far: the first `count` places.
#[derive(Drop)]
struct Numbers {
    places: [u64; NUMBERS],
    count: usize,
}

impl Numbers {
    // One number more, where there is room.
    fn add(&mut self, n: impl Into<u64> + Drop) {
        let k = self.count;
        if k < NUMBERS {
            self.places[k] = n.into();
            self.count = k + 1;
        }
    }

    fn add_input(&mut self, input: &Input) {
        self.add_phase(input.phase);
        self.add(input.packet);
        self.add(input.set);
        for is_connected in &input.outputs[..base::SPLIT_PORT] {
            self.add(*is_connected);
        }
        self.add(input.tries);
    }

    // State, connection and received terminator, 0 for those that there are not.
    fn add_phase(&mut self, phase: Phase) {
        self.add(types::state_number(phase));
        self.add(connection_of(phase).map_or(0, types::connection_number));
        self.add(received_of(phase).map_or(0, types::received_number));
    }

    fn add_output(&mut self, output: &Output) {
        self.add(u8::from(output.used) + 2 * u8::from(output.closing));
        self.add(output.packet);
        self.add(output.set);
        self.add(output.input);
        self.add(output.head);
        self.add(types::terminator_number(output.terminator));
    }

    fn add_out_entry(&mut self, entry: &OutEntry) {
        self.add(entry.packet);
        self.add(entry.set);
        self.add(entry.started);
    }

    fn add_in_entry(&mut self, entry: &InEntry) {
        self.add(entry.packet);
        self.add(entry.set);
        self.add(types::terminator_number(entry.terminator));
    }

    // A queue: its count, and its entries by the function that adds one.
    fn add_queue<E, F: Fn(&mut Numbers, &E)>(&mut self, count: usize, entries: &[E], add: F)
        requires { F.IsAlwaysCallable add }
    {
        self.add(count as u64);
        for entry in entries {
            add(self, entry);
        }
    }

    fn add_out_queue(&mut self, queue: &OutQueue) {
        self.add_queue(queue.count, &queue.entries, Numbers::add_out_entry);
    }

    fn add_in_queue(&mut self, queue: &InQueue) {
        self.add_queue(queue.count, &queue.entries, Numbers::add_in_entry);
    }
}

fn connection_of(phase: Phase) -> Option<Connection> {
    match phase {
        Phase::Free | Phase::Seek => None,
        Phase::Open(connection)
        | Phase::Wait(connection)
        | Phase::Done(connection, _)
        | Phase::Last(connection, _)
        | Phase::Abort(connection)
        | Phase::FinAbort(connection, _) => Some(connection),
    }
}

fn received_of(phase: Phase) -> Option<Received> {
    match phase {
        Phase::Done(_, received) | Phase::Last(_, received) | Phase::FinAbort(_, received) => Some(
            received,
        ),
        _ => None,
    }
}

pub(crate) fn of_site(site: &Site) -> [u64; NUMBERS] {
    let mut numbers = Numbers {
        places: [0; NUMBERS],
        count: 0,
    };
    for input in &site.inputs {
        numbers.add_input(input);
    }
    for output in &site.outputs[..base::SPLIT_PORT] {
        numbers.add_output(output);
    }
    numbers.add_out_queue(&site.outgoing);
    numbers.add_in_queue(&site.incoming[0]);
    for input in &site.inputs {
        numbers.add(input.outputs[base::SPLIT_PORT]);
    }
    numbers.add_output(&site.outputs[base::SPLIT_PORT]);
    numbers.add_in_queue(&site.incoming[1]);
    numbers.places
}
