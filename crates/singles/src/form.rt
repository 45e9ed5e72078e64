// The words of a case that are numbers: its form, what it calls, and how much it says of a site.
ghost use Rattle.std.specs.Prelude.{◌≤◌};
ghost use Rattle.base.specs.Sizes.{sites_most};

use crate::site::{byte_of, short_of};
use std::fmt;

// The numbers of a site, and those of them that stand without the split output and its in-queue.
pub(crate) const NUMBERS: usize = 171;

const FIRST: usize = 135;

// A narrow case is of version 1 and has 16 sites; a wide one says version and edition and has 64.
#[derive(Clone, Copy)]
pub(crate) enum Form {
    Narrow,
    Wide,
}

impl Form {
    // The sites of a case's state.
    pub(crate) fn sites(self) -> usize
        ensures { result ≤ sites_most }
    {
        match self {
            Form::Narrow => base::FIRST_SITES,
            Form::Wide => base::SITES,
        }
    }

    // The channel of a number: in a narrow case a byte, 255 for none.
    pub(crate) fn channel(self, n: u64) -> u16 {
        match self {
            Form::Wide => short_of(n),
            Form::Narrow => match byte_of(n) {
                255 => base::NO_CHANNEL,
                byte => u16::from(byte),
            },
        }
    }
}

// What is called: SEND, RUN, or RUN with the outputs in the way asked for.
#[derive(Clone, Copy)]
pub(crate) enum Call {
    Send,
    Run,
    RunAsked,
}

impl From<u64> for Call {
    fn from(n: u64) -> Call {
        match n {
            1 => Call::Run,
            3 => Call::RunAsked,
            _ => Call::Send,
        }
    }
}

// How much is said of a site: nothing where its numbers are all 0, only the first where those behind them are, or all.
#[derive(Clone, Copy)]
pub(crate) enum Extent {
    Nothing,
    First,
    All,
}

impl From<u64> for Extent {
    fn from(mark: u64) -> Extent {
        match mark {
            1 => Extent::First,
            2 => Extent::All,
            _ => Extent::Nothing,
        }
    }
}

impl Extent {
    pub(crate) fn of(numbers: &[u64; NUMBERS]) -> Extent {
        if numbers[FIRST..].iter().any(|n| *n != 0) {
            Extent::All
        } else if numbers.iter().any(|n| *n != 0) {
            Extent::First
        } else {
            Extent::Nothing
        }
    }

    // How many numbers there are.
    pub(crate) fn count(self) -> usize
        ensures { result ≤ 171 }
    {
        match self {
            Extent::Nothing => 0,
            Extent::First => FIRST,
            Extent::All => NUMBERS,
        }
    }
}

// The mark of it.
impl fmt::Display for Extent {
    fn fmt<W: fmt::Write>(&self, f: &mut fmt::Formatter<W>) -> fmt::Result {
        f.write_str(match self {
            Extent::Nothing => "0",
            Extent::First => "1",
            Extent::All => "2",
        })
    }
}
