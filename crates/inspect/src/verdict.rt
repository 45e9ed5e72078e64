// Whether the bytes of a file are an archive, in words.
use crate::held::Held;
use crate::{heads, items};
use base::Refusal;
use faults::Fault;
use front::Status;
use std::fmt::{Display, Formatter, Result, Write};

// The bytes, and where they are at fault, if they are.
#[derive(Clone, Copy)]
pub struct Verdict<'a> {
    held: Held<'a>,
    fault: Option<Fault>,
}

impl<'a> Verdict<'a> {
    pub fn of(bytes: &'a [u8]) -> Self {
        Verdict {
            held: Held(bytes),
            fault: faults::find(bytes),
        }
    }

    pub fn status(&self) -> Status {
        match self.fault {
            None => Status::Done,
            Some(_) => Status::Failed,
        }
    }
}

// What an archive holds; of what is none the reader's number, what is wrong and where.
impl Display for Verdict<'_> {
    fn fmt<W: Write>(&self, f: &mut Formatter<W>) -> Result {
        let held = self.held;
        let Some(Fault { refusal, place }) = self.fault else {
            return heads::write_good(f, held);
        };
        write!(f, "refused {refusal}: ")?;
        match refusal {
            Refusal::Length => heads::write_short(f, held),
            Refusal::Version => heads::write_version(f, held),
            Refusal::Edition => heads::write_edition(f, held),
            Refusal::Sizes => heads::write_limit(f, held),
            Refusal::Seed => heads::write_seed(f, held),
            Refusal::Channels => items::write_channel(f, held, place),
            Refusal::Routes => items::write_route(f, held, place),
            Refusal::Sends => items::write_send(f, held, place),
            _ => heads::write_size(f, held),
        }
    }
}
