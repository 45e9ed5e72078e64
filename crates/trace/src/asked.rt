// The words that `trace` is called with: three options, of which one at most may be named, and the name of a file.
use crate::run::Mode;
use front::{Desk, NoWork, Program, Usage, Words};

// The words of the usage of a command of the front, which stands for an option.
const FILE: &str = "[--] FILE";

const TRACE: Usage = Usage {
    words: "[--all | --why | --apart] [--] FILE",
    meaning: &[
        "Tells what happened in the stored run FILE: a line for each send and for each draw\n",
        "that changed something, with --all for every draw; the last line has the counts.\n",
        "With --why instead where the router failed, and which outputs stood in the way; with\n",
        "--apart which sites of its network are far apart.\n",
    ],
    details: &[],
};

const WHY: Usage = Usage {
    words: "--why [--] FILE",
    meaning: &[
        "Tells where the router failed in the stored run FILE: for each failed ask its draw, site,\n",
        "net-input, packet and the outputs in the way, each of which would have done if it alone had\n",
        "been empty; behind them how often each output stood in the way, the most often first.\n",
    ],
    details: &[],
};

const APART: Usage = Usage {
    words: "--apart [--] FILE",
    meaning: &[
        "Tells which sites of the network in FILE are far apart, with no channel between them in either\n",
        "direction: for each site a line with its number and the sites far apart from it. Two RUNs at\n",
        "such sites give the same final state and the same answers in either order.\n",
    ],
    details: &[],
};

// What is told: what happened in the run, or which sites of its network are far apart.
#[derive(Clone, Copy)]
pub enum Told {
    Run(Mode),
    Apart,
}

// What is asked for of the file that this argument names.
#[derive(Clone, Copy)]
pub struct Work {
    pub told: Told,
    pub file: usize,
}

// The words so far. Options count behind a call for help or a wrong word too, since the usage goes by them.
#[derive(Clone, Copy)]
pub struct Asked {
    all: bool,
    why: bool,
    apart: bool,
    words: Result<Words, NoWork>,
}

impl Asked {
    pub fn of(program: &Program<impl Desk>) -> Asked {
        let mut asked = Asked {
            all: false,
            why: false,
            apart: false,
            words: Words::none(program),
        };
        let mut room = io::buffer();
        for i in program.words() {
            let n = program.word_at(i, &mut room);
            asked = asked.with(program, i, &room[..n]);
        }
        asked
    }

    // With one more word, argument i: an option, or what the programs share.
    fn with(self, program: &Program<impl Desk>, i: usize, word: &[u8]) -> Asked {
        let mut asked = self;
        match word {
            b"--all" if self.takes_options() => asked.all = true,
            b"--why" if self.takes_options() => asked.why = true,
            b"--apart" if self.takes_options() => asked.apart = true,
            _ => asked.words = self.words.and_then(|words| words.with(program, i, word)),
        }
        asked
    }

    // Whether `--` has not come yet.
    fn takes_options(self) -> bool {
        match self.words {
            Ok(words) => !words.is_ended,
            Err(_) => true,
        }
    }

    // What the words ask for; what is wrong is said.
    pub fn work(self, program: &Program<impl Desk>) -> Result<Work, NoWork> {
        let words = self.words?;
        let told = match (self.all, self.why, self.apart) {
            (true, true, _) => return Err(program.misused("--all does not go with --why")),
            (true, _, true) => return Err(program.misused("--all does not go with --apart")),
            (_, true, true) => return Err(program.misused("--why does not go with --apart")),
            (true, false, false) => Told::Run(Mode::Every),
            (false, true, false) => Told::Run(Mode::Why),
            (false, false, true) => Told::Apart,
            (false, false, false) => Told::Run(Mode::Changes),
        };
        match words.last {
            Some(file) if words.names == 1 => Ok(Work { told, file }),
            Some(_) | None => Err(program.misused(self.one_file())),
        }
    }

    fn one_file(self) -> &'static str {
        if self.apart {
            return "apart takes one file";
        }
        if self.why {
            return "why takes one file";
        }
        "trace takes one file"
    }

    // The usage that the options ask for. A command of the front takes the file alone.
    pub fn usage(self, program: &Program<impl Desk>) -> Usage {
        let (usage, command) = if self.apart && !program.is_command(" why") {
            (APART, " apart")
        } else if self.why {
            (WHY, " why")
        } else {
            return TRACE;
        };
        if program.is_command(command) {
            return Usage {
                words: FILE,
                ..usage
            };
        }
        usage
    }
}
