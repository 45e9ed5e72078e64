// The player: the stored run that bytes stand for, played by the book, turn by turn on one state; its services are entered in a lent book.
// A turn is a send that is due, or a draw. specs/Play.antt has what it answers, specs/Progress.antt the turns.
ghost use Rattle.std.specs.Prelude.{◌≡◌, None, length};
ghost use Rattle.model.specs.Runs.{played_run, counts_of};
ghost use Rattle.format.specs.Format.{no_run};
ghost use Rattle.machine.specs.Play.{refused_by, play_answer, play_book, book_in, Playable, start_of, told_start, told_play};

use crate::clock::{Clock, ticked};
use crate::events::{act_of, empty_state, try_send};
use crate::owing::owed_pairs;
use crate::store::{answer_to, store_act};
use crate::turns::{book_room, capped, enter_answer, is_due};
use base::Refusal;
use types::{Counts, Network, Run, Sent, StoredSend};

// What the player answers in numbers: the refusal, or 0 and the counts; with a refusal all counts are zero.
#[derive(Clone, Copy)]
pub struct PlayAnswer {
    pub refusal: u8,
    pub counts: Counts,
}

// The answer with a refusal, whatever number it has. (A struct and no Result: `refused_settled` is about any number of a byte.)
pub fn refused(refusal: u8) -> PlayAnswer
    ensures { result ≡ refused_by refusal }
{
    PlayAnswer {
        refusal,
        counts: Counts {
            accepted: 0,
            pairs: 0,
            serviced: 0,
            owed: 0,
        },
    }
}

// A valid run played from the empty state, the book large enough: one state, advanced draw by draw by the core step by value.
fn play_run(run: &Run, book: &mut [u8]) -> Counts
    requires { Playable run.now (length book.old) }
    ensures { (result ≡ counts_of (played_run run.now)) × (book.new ≡ book_in run.now book.old) }
{
    let network = run.network;
    let total = run.count + usize::from(run.draws);
    let mut state = empty_state();
    let mut clock = Clock {
        value: run.seed,
        draw: 0,
    };
    let mut next = 0usize;
    let mut accepted = 0usize;
    let mut pairs = 0usize;
    let mut serviced = 0usize;
    for _turn in 0..total {
        let order = run.sends[capped(next)];
        let draw = clock.draw;
        if is_due(order, next, run.count, draw) {
            next += 1;
            let after = try_send(network, state, base::wide(order.site), order.set);
            let Sent::Accepted(_) = after.answer else {
                continue;
            };
            state = after.state;
            accepted += 1;
            pairs += sets::size(order.set);
            continue;
        }
        clock = ticked(clock);
        let event = draws::event_of(clock.value, network.sites, network.edition).unwrap();
        let looked = act_of(network, state, event.site, event.code);
        state = store_act(state, event.site, looked.act);
        let answer = answer_to(&looked.act, event.site);
        serviced = enter_answer(book, serviced, draw, answer);
    }
    Counts {
        accepted,
        pairs,
        serviced,
        owed: owed_pairs(state),
    }
}

// The answer of a player, in numbers.
impl From<Result<Counts, Refusal>> for PlayAnswer {
    ghost from_gives = { λ played answer. answer ≡ told_play played };

    fn from(played: Result<Counts, Refusal>) -> PlayAnswer {
        match played {
            Ok(counts) => PlayAnswer { refusal: 0, counts },
            Err(refusal) => refused(u8::from(refusal)),
        }
    }
}

// What a player starts from: the run that the reader hands over, and why it is not played, if anything.
#[derive(Clone, Copy)]
pub struct Started {
    pub refused: Option<Refusal>,
    pub run: Run,
}

// The all-zero run.
fn no_run() -> Run
    ensures { result ≡ no_run }
{
    let none = StoredSend {
        set: 0,
        draw: 0,
        site: 0,
    };
    Run {
        network: Network {
            sites: 0,
            depth: 0,
            tries: 0,
            version: 0,
            edition: 0,
            channels: [0; base::PORTS * base::SITES],
            routes: [0; base::SITES * base::SITES],
        },
        seed: 0,
        draws: 0,
        count: 0,
        sends: [none; base::SENDS],
    }
}

// What a player starts from, with so many bytes lent for the book: refusals 1 to 8, 17 and 14. (Each answer is
// returned where it is made: of one that is the value of a `match` the compiler keeps another copy, which takes the
// stack of `words::play` above its bound, docs/DECISIONS.md 163.)
pub fn start(bytes: &[u8], room: usize) -> Started
    ensures { (told_start result ≡ start_of bytes.now room)
        × (result.refused ≡ None → Playable result.run room) }
{
    let run = match archive::read(bytes) {
        Ok(run) => run,
        Err(refusal) => {
            return Started {
                refused: Some(refusal),
                run: no_run(),
            };
        }
    };
    if room < book_room(run.sends, run.count) {
        return Started {
            refused: Some(Refusal::Room),
            run,
        };
    }
    Started { refused: None, run }
}

// The player, for any bytes and any lent room: refusals 1 to 8, 17 and 14, or the run played and its book at the room's front.
pub fn play(bytes: &[u8], book: &mut [u8]) -> Result<Counts, Refusal>
    ensures { (told_play result ≡ play_answer bytes.now (length book.old))
        × (book.new ≡ play_book bytes.now book.old) }
{
    let started = start(bytes, book.len());
    if let Some(refusal) = started.refused {
        return Err(refusal);
    }
    Ok(play_run(&started.run, book))
}
