// The lines of sends and draws, in the words of docs/TRACE.md: each is composed whole and goes out by one write.
use crate::change::Change;
use front::Line;
use std::fmt;
use std::fmt::{Display, Write as _};
use std::io::{Print, Result};
use types::{Sent, StoredSend};

// Room for every line: the longest has some 550 bytes, a split to five outputs in a network of 64 sites.
const ROOM: usize = 1024;

// Prints a text as a line.
pub fn print<D: Display + Drop>(out: &impl Print, text: D) -> Result<()> {
    let mut line = Line::<ROOM>::new();
    let _ = writeln!(line, "{text}");
    out.write_all(line.as_bytes())
}

// A set of sites or outputs, as `{0,2,3}`.
#[derive(Clone, Copy)]
pub struct Set(pub u64);

impl Display for Set {
    fn fmt<W: fmt::Write>(&self, f: &mut fmt::Formatter<W>) -> fmt::Result {
        write!(f, "{{")?;
        let mut separator = "";
        for t in 0..base::SET {
            if sets::member(self.0, t) {
                write!(f, "{separator}{t}")?;
                separator = ",";
            }
        }
        write!(f, "}}")
    }
}

// A send of a run with this many draws, the number of the send and its answer.
#[derive(Clone, Copy)]
pub struct SendLine {
    pub number: usize,
    pub draws: u16,
    pub order: StoredSend,
    pub answer: Sent,
}

impl Display for SendLine {
    fn fmt<W: fmt::Write>(&self, f: &mut fmt::Formatter<W>) -> fmt::Result {
        let number = self.number;
        let order = self.order;
        let site = order.site;
        let set = Set(order.set);
        if order.draw == self.draws {
            write!(
                f,
                "send {number} after the last draw: site {site} to {set}: "
            )?;
        } else {
            write!(
                f,
                "send {number} before draw {}: site {site} to {set}: ",
                order.draw
            )?;
        }
        match self.answer {
            Sent::Accepted(packet) => write!(f, "packet {packet}"),
            Sent::Refused(why) => write!(f, "passed over, refused {why}"),
        }
    }
}

// Draw number `number`, and what it changed, if anything.
#[derive(Clone, Copy)]
pub struct DrawLine<'a> {
    pub number: u16,
    pub site: usize,
    pub code: usize,
    pub change: Option<Change<'a>>,
}

impl Display for DrawLine<'_> {
    fn fmt<W: fmt::Write>(&self, f: &mut fmt::Formatter<W>) -> fmt::Result {
        write!(
            f,
            "draw {}: site {}, {}: ",
            self.number,
            self.site,
            Component(self.code)
        )?;
        match self.change {
            Some(change) => write!(f, "{change}"),
            None => write!(f, "nothing"),
        }
    }
}

// The component that a code names.
#[derive(Clone, Copy)]
struct Component(usize);

impl Display for Component {
    fn fmt<W: fmt::Write>(&self, f: &mut fmt::Formatter<W>) -> fmt::Result {
        match self.0 {
            code @ 0..=4 => write!(f, "net-input {code}"),
            code @ 5..=9 => write!(f, "net-output {}", code - base::INPUTS),
            10 => write!(f, "out-queue"),
            11 => write!(f, "operator"),
            12 => write!(f, "timeout"),
            13 => write!(f, "split output"),
            _ => write!(f, "split operator"),
        }
    }
}
