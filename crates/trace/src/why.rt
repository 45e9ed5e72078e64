// Failed asks, in the words of docs/TRACE.md: a line for each, and how often each output stood in the way. Every
// function takes any numbers: one beyond its range stands for its remainder.
ghost use Rattle.std.specs.Prelude.{◌<◌, IfSome};

use crate::places::Places;
use crate::printed::{Set, print};
use std::io::{Print, Result};

// The outputs of all sites.
const PLACES: usize = base::OUTPUTS * base::SITES;

// A failed ask at draw number `number`: net-input `input` of the site, and the outputs in its way, none where nothing
// failed.
#[derive(Clone, Copy)]
pub struct Ask {
    pub number: u16,
    pub site: usize,
    pub input: usize,
    pub outputs: u64,
}

// How often each output stood in the way: output j of site s at OUTPUTS x s + j.
#[derive(Clone, Copy)]
pub struct Times {
    counts: [usize; PLACES],
}

impl Times {
    pub fn none() -> Times {
        Times {
            counts: [0; PLACES],
        }
    }

    // Counts the outputs of a failed ask and prints its line, unless nothing failed.
    pub fn tell(&mut self, out: &impl Print, ask: Ask, state: Places) -> Result<()> {
        if ask.outputs == 0 {
            return Ok(());
        }
        self.count(ask);
        let packet = state.input(ask.site, ask.input).packet;
        let outputs = Set(ask.outputs);
        print(
            out,
            format_args!(
                "{} {} {} {packet} {outputs}",
                ask.number, ask.site, ask.input
            ),
        )
    }

    fn count(&mut self, ask: Ask) {
        let first = base::OUTPUTS * (ask.site % base::SITES);
        for j in 0..base::OUTPUTS {
            if sets::member(ask.outputs, j) {
                self.counts[first + j] = self.counts[first + j].wrapping_add(1);
            }
        }
    }

    // Prints `output J of site S: N` for each output that was counted, the most often first, among equals the lower
    // place. What is printed is counted no more.
    pub fn print(&mut self, out: &impl Print) -> Result<()> {
        for _ in 0..PLACES {
            let Some(place) = self.most() else {
                break;
            };
            let (site, j) = (place / base::OUTPUTS, place % base::OUTPUTS);
            print(
                out,
                format_args!("output {j} of site {site}: {}", self.counts[place]),
            )?;
            self.counts[place] = 0;
        }
        Ok(())
    }

    // The first place with the most, unless nothing is counted.
    fn most(&self) -> Option<usize>
        ensures { IfSome result (λ place. place < 384) }
    {
        let mut most = 0;
        let mut best = None;
        for (place, count) in self.counts.iter().enumerate() {
            if most < *count {
                most = *count;
                best = Some(place);
            }
        }
        best
    }
}
