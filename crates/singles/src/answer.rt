// Lines of numbers: an answer, and numbers behind another.
use std::fmt;
use types::{Ran, Sent};

// The numbers of an answer, 0 where it has none.
#[derive(Clone, Copy)]
pub(crate) struct Answer {
    refusal: u8,
    answer: u8,
    packet: u8,
    site: u8,
}

const NOTHING: Answer = Answer {
    refusal: 0,
    answer: 0,
    packet: 0,
    site: 0,
};

impl From<Sent> for Answer {
    fn from(sent: Sent) -> Answer {
        match sent {
            Sent::Accepted(answer) => Answer { answer, ..NOTHING },
            Sent::Refused(refusal) => Answer { refusal, ..NOTHING },
        }
    }
}

impl From<Ran> for Answer {
    fn from(ran: Ran) -> Answer {
        match ran {
            Ran::Nothing => NOTHING,
            Ran::Changed => Answer {
                answer: 1,
                ..NOTHING
            },
            Ran::Serviced(packet, site) => Answer {
                answer: 2,
                packet,
                site,
                ..NOTHING
            },
            Ran::Refused(refusal) => Answer { refusal, ..NOTHING },
        }
    }
}

impl fmt::Display for Answer {
    fn fmt<W: fmt::Write>(&self, f: &mut fmt::Formatter<W>) -> fmt::Result {
        write!(
            f,
            "{} {} {} {}",
            self.refusal, self.answer, self.packet, self.site
        )
    }
}

// Numbers behind another, a space before each.
#[derive(Clone, Copy)]
pub(crate) struct Behind<'a>(pub &'a [u64]);

impl fmt::Display for Behind<'_> {
    fn fmt<W: fmt::Write>(&self, f: &mut fmt::Formatter<W>) -> fmt::Result {
        for n in self.0 {
            write!(f, " {n}")?;
        }
        Ok(())
    }
}
