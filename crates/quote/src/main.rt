// `quote [--front NAME] [--help] [--doubled] [--] t L D n W`: prints the latency of a packet that meets no other, in
// cycles, four lines: unicast, and the averages of multi-unicast, resumable and restricted branch multicast; with
// --doubled twice each. Where a word is no whole number of 1 to 65,535 it prints only `refused 20`. Crate latency has
// the formulas. What is read and written no contract can say: `number` and `text` have contracts, the other functions
// are proved safe and ending.
#![tactic(auto)]

mod asked;
mod number;
mod text;

use asked::Asked;
use front::{Desk, Program, Status, Usage};

const USAGE: Usage = Usage {
    words: "[--doubled] [--] t L D n W",
    meaning: &[
        "Prints the latency of a packet that meets no other, in cycles, four lines: unicast, and the averages\n",
    ],
    details: &[
        "of multi-unicast, resumable and restricted branch multicast; with --doubled twice each. t: bits of\n",
        "a target; L: bits of the data; D: channels to go; n: targets; W: bits of a channel; 1 to 65535 each.\n",
    ],
};

fn main(rt: HostRuntime) {
    let program = Program::called(rt, "quote");
    let status = answer(&program);
    program.tell(status);
}

// Does what the words ask for.
fn answer(program: &Program<impl Desk>) -> Status {
    match Asked::of(program) {
        Ok(asked) => print_quote(program, asked),
        Err(why) => program.show_usage(why, USAGE),
    }
}

// Prints the four lines, or the refusal.
fn print_quote(program: &Program<impl Desk>, asked: Asked) -> Status {
    let mut room = [0u8; text::TEXT];
    let quoted = text::quote(asked.numbers, asked.doubled, &mut room);
    if program.print(&room[..quoted.count]) && quoted.refused.is_none() {
        Status::Done
    } else {
        Status::Failed
    }
}
