// Why something is turned down: a case for each number of docs/MODEL.md, "Refusals".
ghost use Rattle.std.specs.Prelude.{◌≡◌};
ghost use Rattle.base.specs.Refusals.{number};

use std::fmt;

#[derive(Clone, Copy)]
pub enum Refusal {
    // Reading: too few bytes, or another length than the file says.
    Length,
    Version,
    Edition,
    // S, T or D.
    Sizes,
    Seed,
    // Reading: another length than S and N make; writing: too many sends.
    Count,
    Channels,
    Routes,
    Sends,
    // A site or a code that there is not.
    Unknown,
    Targets,
    // The site's out-queue is full.
    Queue,
    // All packets are accepted.
    Packets,
    // The state is not in range.
    State,
    // The room lent for the output is too short.
    Room,
    // A run that does not go into version 1.
    Back,
    // A number of uncontended latency.
    Argument,
}

impl From<Refusal> for u8 {
    ghost from_gives = { λ refusal n. n ≡ number refusal };

    fn from(refusal: Refusal) -> u8 {
        match refusal {
            Refusal::Length => 1,
            Refusal::Version => 2,
            Refusal::Edition => 17,
            Refusal::Sizes => 3,
            Refusal::Seed => 4,
            Refusal::Count => 5,
            Refusal::Channels => 6,
            Refusal::Routes => 7,
            Refusal::Sends => 8,
            Refusal::Unknown => 9,
            Refusal::Targets => 10,
            Refusal::Queue => 11,
            Refusal::Packets => 12,
            Refusal::State => 13,
            Refusal::Room => 14,
            Refusal::Back => 15,
            Refusal::Argument => 20,
        }
    }
}

// The number.
impl fmt::Display for Refusal {
    fn fmt<W: fmt::Write>(&self, f: &mut fmt::Formatter<W>) -> fmt::Result {
        u8::from(*self).fmt(f)
    }
}
