// A stored run traced by the public single events on lent words, in the order of docs/MODEL.md: before draw d every
// send that is marked d, after the last draw those marked with the number of draws. Each event's line goes out before
// the next event. Assumes nothing of the run.
use crate::change::{Change, Target};
use crate::places::Places;
use crate::printed::{DrawLine, SendLine, print};
use crate::why::{Ask, Times};
use base::Refusal;
use layout::WORDS;
use machine::Clock;
use std::io::{Error, Print};
use types::{Counts, Network, Ran, Run, RunAnswer, Sent, StoredSend};

// What is told of a run: the sends and the draws that changed something; every draw too; or the failed asks alone.
#[derive(Clone, Copy, PartialEq, Eq)]
pub enum Mode {
    Changes,
    Every,
    Why,
}

// Why a trace goes no further: RUN refused, which no valid run comes to, or a line cannot be written.
#[derive(Drop)]
pub enum Stop {
    Refused,
    Unwritten(Error),
}

impl From<Error> for Stop {
    fn from(error: Error) -> Stop {
        Stop::Unwritten(error)
    }
}

impl From<Refusal> for Stop {
    fn from(_refusal: Refusal) -> Stop {
        Stop::Refused
    }
}

// A run under way: the words of its state, and those before the present event, which are not looked at where only
// failed asks are told; how often each output stood in the way; the next send, the clock of the draws, and what was
// counted.
#[derive(Drop)]
struct Tracer<'a, P> {
    out: &'a P,
    run: &'a Run,
    mode: Mode,
    state: [u64; WORDS],
    before: [u64; WORDS],
    times: Times,
    next: usize,
    clock: Clock,
    counts: Counts,
}

// Traces a run from the empty state, the pairs that are owed at its end counted. Behind failed asks it prints how often
// each output stood in the way. (Called, and not put into its caller: its words are no part of the stack where nothing is
// played.)
#[inline(never)]
pub fn trace(out: &impl Print, run: &Run, mode: Mode) -> Result<Counts, Stop> {
    let mut state = [0u64; WORDS];
    words::write_empty(&mut state);
    let mut tracer = Tracer {
        out,
        run,
        mode,
        state,
        before: state,
        times: Times::none(),
        next: 0,
        clock: Clock {
            value: run.seed,
            draw: 0,
        },
        counts: Counts {
            accepted: 0,
            pairs: 0,
            serviced: 0,
            owed: 0,
        },
    };
    tracer.trace()
}

impl<P: Print> Tracer<'_, P> {
    // As many turns as there are sends and draws.
    fn trace(&mut self) -> Result<Counts, Stop> {
        let turns = self.run.count.wrapping_add(usize::from(self.run.draws));
        for _ in 0..turns {
            self.turn()?;
        }
        let owed = words::owed(&self.state)?;
        if self.mode == Mode::Why {
            self.times.print(self.out)?;
        }
        Ok(Counts {
            owed,
            ..self.counts
        })
    }

    // One turn: the next send if it is due, else the next draw, else nothing.
    fn turn(&mut self) -> Result<(), Stop> {
        if let Some(order) = self.due() {
            return self.send(order);
        }
        if self.clock.draw < self.run.draws {
            return self.draw();
        }
        Ok(())
    }

    // The next send, if there is one and it is due.
    fn due(&self) -> Option<StoredSend> {
        if self.run.count <= self.next {
            return None;
        }
        match self.run.sends.get(self.next) {
            Some(order) if order.draw == self.clock.draw => Some(*order),
            Some(_) | None => None,
        }
    }

    // SEND as the order says.
    fn send(&mut self, order: StoredSend) -> Result<(), Stop> {
        let answer = words::send(
            self.run.network,
            &mut self.state,
            usize::from(order.site),
            order.set,
        );
        self.before.copy_from_slice(&self.state);
        if self.mode != Mode::Why {
            let line = SendLine {
                number: self.next,
                draws: self.run.draws,
                order,
                answer,
            };
            print(self.out, line)?;
        }
        self.next = self.next.wrapping_add(1);
        if let Sent::Accepted(_) = answer {
            self.counts.accepted = self.counts.accepted.wrapping_add(1);
            self.counts.pairs = self.counts.pairs.wrapping_add(sets::size(order.set));
        }
        Ok(())
    }

    // The draw, and RUN as it names.
    fn draw(&mut self) -> Result<(), Stop> {
        let network = &self.run.network;
        let ticked = machine::ticked(self.clock);
        let event = draws::event_of(ticked.value, network.sites, network.edition)?;
        let ran = words::run(*network, &mut self.state, event.site, event.code);
        self.tell(event.site, event.code, ran)?;
        if let Ran::Serviced(_, _) = ran.answer {
            self.counts.serviced = self.counts.serviced.wrapping_add(1);
        }
        self.clock = ticked;
        Ok(())
    }

    // Tells of the draw what the mode asks for.
    fn tell(&mut self, site: usize, code: usize, ran: RunAnswer) -> Result<(), Stop> {
        if let Ran::Refused(_) = ran.answer {
            return Err(Stop::Refused);
        }
        match self.mode {
            Mode::Why => {
                let ask = Ask {
                    number: self.clock.draw,
                    site,
                    input: code,
                    outputs: ran.blocking,
                };
                self.times.tell(self.out, ask, Places(&self.state))?;
            }
            Mode::Changes | Mode::Every => self.tell_draw(site, code, ran.answer)?,
        }
        Ok(())
    }

    // Prints the line that a draw's answer asks for, and keeps the words for the next event.
    fn tell_draw(&mut self, site: usize, code: usize, answer: Ran) -> Result<(), Error> {
        let number = self.clock.draw;
        if let Ran::Nothing = answer {
            if self.mode == Mode::Every {
                print(
                    self.out,
                    DrawLine {
                        number,
                        site,
                        code,
                        change: None,
                    },
                )?;
            }
            return Ok(());
        }
        let change = Change {
            tries: self.run.network.tries,
            target: target_of(&self.run.network, site, code),
            before: Places(&self.before),
            after: Places(&self.state),
            site,
            code,
            answer,
        };
        print(
            self.out,
            DrawLine {
                number,
                site,
                code,
                change: Some(change),
            },
        )?;
        self.before.copy_from_slice(&self.state);
        Ok(())
    }
}

// The input at the end of the channel of the net-output that this code names at a site; the first of site 0 for another
// code.
fn target_of(network: &Network, site: usize, code: usize) -> Target {
    let channel = match code {
        6..=9 if site < base::SITES => usize::from(network.channels[base::PORTS * site + code - 6]),
        _ => 0,
    };
    Target {
        site: channel / base::PORTS,
        input: channel % base::PORTS + 1,
    }
}
