// What a RUN changed, in the words of docs/TRACE.md: what became of the component that its code names, as it is seen in
// the words before and after the event.
use crate::places::State::{Free, Seek};
use crate::places::{Input, Output, Places};
use crate::printed::Set;
use std::fmt;
use std::fmt::{Display, Formatter, Result};
use types::Ran;

// The input at the end of a channel.
#[derive(Clone, Copy)]
pub struct Target {
    pub site: usize,
    pub input: usize,
}

impl Display for Target {
    fn fmt<W: fmt::Write>(&self, f: &mut Formatter<W>) -> Result {
        write!(f, "site {}, net-input {}", self.site, self.input)
    }
}

// A RUN with this code at a site, its answer, and the state before and after it. `tries` is the network's T; `target`
// is at the end of the channel of the net-output which a code from 6 to 9 names.
#[derive(Clone, Copy)]
pub struct Change<'a> {
    pub tries: u8,
    pub target: Target,
    pub before: Places<'a>,
    pub after: Places<'a>,
    pub site: usize,
    pub code: usize,
    pub answer: Ran,
}

impl Display for Change<'_> {
    fn fmt<W: fmt::Write>(&self, f: &mut Formatter<W>) -> Result {
        match self.code {
            i @ 0..=4 => self.write_input(f, i),
            5 => self.write_arrival(f, 0, "in-queue"),
            code @ 6..=9 => self.write_output(f, code - base::INPUTS),
            10 => self.write_out_queue(f),
            11 => self.write_operator(f, 0),
            12 => self.write_timeout(f),
            13 => self.write_arrival(f, base::SPLIT_PORT, "split in-queue"),
            _ => self.write_operator(f, 1),
        }
    }
}

impl Change<'_> {
    // ---- codes 0 to 4

    fn write_input<W: fmt::Write>(&self, f: &mut Formatter<W>, i: usize) -> Result {
        let was = self.before.input(self.site, i);
        let now = self.after.input(self.site, i);
        if was.state == Seek {
            return self.write_asked(f, now);
        }
        write!(f, "packet {}, {} to {}", was.packet, was.state, now.state)?;
        if now.state == Free {
            return self.write_terminators(f, was.marks);
        }
        Ok(())
    }

    // What the router was asked for, and answered.
    fn write_asked<W: fmt::Write>(&self, f: &mut Formatter<W>, now: Input) -> Result {
        if now.state == Seek {
            return write!(
                f,
                "packet {}, seek, try {} of {}",
                now.packet, now.tries, self.tries
            );
        }
        write!(
            f,
            "packet {}, seek to {}, {}",
            now.packet, now.state, now.connection
        )?;
        self.write_marked(f, now.marks, |output| Set(output.set))
    }

    // The terminators that the marked outputs got.
    fn write_terminators<W: fmt::Write>(&self, f: &mut Formatter<W>, marks: u64) -> Result {
        self.write_marked(f, marks, |output| output.terminator)
    }

    // What each marked output got.
    fn write_marked<W: fmt::Write, D: Display + Drop, F: Fn(Output) -> D>(
        &self,
        f: &mut Formatter<W>,
        marks: u64,
        got: F,
    ) -> Result
        requires { F.IsAlwaysCallable got }
    {
        for j in 0..base::OUTPUTS {
            if sets::member(marks, j) {
                let what = got(self.after.output(self.site, j));
                if j == base::SPLIT_PORT {
                    write!(f, ", split output gets {what}")?;
                } else {
                    write!(f, ", output {j} gets {what}")?;
                }
            }
        }
        Ok(())
    }

    // ---- codes 5 to 9, and 13

    // What output j delivers into its in-queue.
    fn write_arrival<W: fmt::Write>(&self, f: &mut Formatter<W>, j: usize, queue: &str) -> Result {
        let carried = Carried(self.before.output(self.site, j));
        write!(f, "{carried} enters the {queue}")
    }

    // What goes through the channel of output j and where; of an output that was closing, the channel that it gives up.
    fn write_output<W: fmt::Write>(&self, f: &mut Formatter<W>, j: usize) -> Result {
        let output = self.before.output(self.site, j);
        let target = self.target;
        if output.is_closing {
            return write!(
                f,
                "packet {} gives up its channel to {target}",
                output.packet
            );
        }
        let was = self.before.input(target.site, target.input);
        let now = self.after.input(target.site, target.input);
        let carried = Carried(output);
        write!(
            f,
            "{carried} goes to {target}, {} to {}",
            was.state, now.state
        )?;
        if self.after.output(self.site, j).is_closing {
            return write!(f, ", closing");
        }
        Ok(())
    }

    // ---- codes 10 to 12, and 14

    fn write_out_queue<W: fmt::Write>(&self, f: &mut Formatter<W>) -> Result {
        let queue = self.before.leaving(self.site);
        let was = self.before.input(self.site, 0);
        let now = self.after.input(self.site, 0);
        let what = if queue.has_started { "ends" } else { "starts" };
        write!(
            f,
            "packet {} {what}, net-input 0 {} to {}",
            queue.packet, was.state, now.state
        )
    }

    // The operator of in-queue m: a service, or an entry that went without one, and the rest if there is one.
    fn write_operator<W: fmt::Write>(&self, f: &mut Formatter<W>, m: usize) -> Result {
        let was = self.before.leaving(self.site);
        let now = self.after.leaving(self.site);
        let is_requeued = was.count < now.count;
        let rest = Set(now.last);
        if let Ran::Serviced(packet, site) = self.answer {
            write!(f, "packet {packet} serviced at site {site}")?;
            if is_requeued {
                return write!(f, ", {rest} requeued");
            }
            return Ok(());
        }
        let packet = self.before.arrived(self.site, m);
        if is_requeued {
            return write!(f, "packet {packet} requeued, {rest}");
        }
        write!(f, "packet {packet} cleared")
    }

    fn write_timeout<W: fmt::Write>(&self, f: &mut Formatter<W>) -> Result {
        let i = self.before.output(self.site, 0).feeder;
        let was = self.before.input(self.site, i);
        let now = self.after.input(self.site, i);
        write!(
            f,
            "net-input {i} cut, packet {}, {} to {}",
            was.packet, was.state, now.state
        )?;
        self.write_terminators(f, sets::without(was.marks, 0))
    }
}

// What an output carries: the packet, or its terminator if the head was taken before.
#[derive(Clone, Copy)]
struct Carried(Output);

impl Display for Carried {
    fn fmt<W: fmt::Write>(&self, f: &mut Formatter<W>) -> Result {
        let output = self.0;
        if output.has_head {
            return write!(f, "{} of packet {}", output.terminator, output.packet);
        }
        write!(f, "packet {}", output.packet)
    }
}
