// The player over words: the state of a run in lent words, a turn a function, a loop of a few lines. It answers and enters what
// `machine::play` does (machine's specs/Play.antt).
ghost use Rattle.std.specs.Prelude.{◌≡◌, ◌+◌, ◌*◌, ◌≤◌, length};
ghost use Rattle.base.specs.Sizes.{sites_most, queue_room, sends_most, set_bits};
ghost use Rattle.model.specs.Runs.{played_run, counts_of};
ghost use Rattle.machine.specs.Play.{play_answer, play_book, told_play, book_in, Playable};
ghost use Rattle.words.specs.Turned.{Tried, Drew, Turned, Turnable, Startable, Stands};

use crate::owing::owed_in_place;
use crate::runs::run_in_place;
use crate::sends::send_in_place;
use base::Refusal;
use layout::WORDS;
use machine::{Clock, capped, enter_answer, is_due, start, ticked};
use types::{Counts, Network, Run, Sent, StoredSend};

// Where a run stands beside its state and its book: the packets accepted, their summed set sizes, the services, the next stored send,
// the run clock.
#[derive(Clone, Copy)]
pub struct Tally {
    pub accepted: usize,
    pub pairs: usize,
    pub serviced: usize,
    pub next: usize,
    pub clock: Clock,
}

// The send that is due; a refused one is passed over.
fn send_turn(
    sites: usize,
    depth: usize,
    words: &mut [u64; WORDS],
    order: StoredSend,
    t: Tally,
) -> Tally
    requires { (sites ≤ sites_most) × (depth ≤ queue_room) × (t.next ≤ sends_most) × (t.accepted ≤ sends_most) ×
        (t.pairs ≤ sends_most * set_bits) }
    ensures { Tried sites depth words.old words.new order t result }
{
    let answer = send_in_place(sites, depth, words, usize::from(order.site), order.set);
    let tried = Tally {
        next: t.next + 1,
        ..t
    };
    let Sent::Accepted(_) = answer else {
        return tried;
    };
    Tally {
        accepted: t.accepted + 1,
        pairs: t.pairs + sets::size(order.set),
        ..tried
    }
}

// A draw: the clock advances, and the event that its value names is run.
fn draw_turn(network: &Network, words: &mut [u64; WORDS], book: &mut [u8], t: Tally) -> Tally
    requires { Turnable network.now words.old t }
    ensures { Drew network.now words.old words.new book.old book.new t result }
{
    let clock = ticked(t.clock);
    let event = draws::event_of(clock.value, network.sites, network.edition).unwrap();
    let answer = run_in_place(network, words, event.site, event.code);
    let serviced = enter_answer(book, t.serviced, t.clock.draw, answer);
    Tally {
        serviced,
        clock,
        ..t
    }
}

// A turn: the send that is due, or a draw.
fn take_turn(
    run: &Run,
    order: StoredSend,
    words: &mut [u64; WORDS],
    book: &mut [u8],
    t: Tally,
) -> Tally
    requires { Turnable run.now.network words.old t }
    ensures { Turned run.now.network run.now.count words.old words.new book.old book.new order t result }
{
    if is_due(order, t.next, run.count, t.clock.draw) {
        send_turn(run.network.sites, run.network.depth, words, order, t)
    } else {
        draw_turn(&run.network, words, book, t)
    }
}

// The turns of a valid run, from zero words: first its sends and draws in turn, then no more.
fn play_turns(run: &Run, words: &mut [u64; WORDS], book: &mut [u8]) -> Tally
    requires { Startable run.now words.old (length book.old) }
    ensures { Stands run.now words.new book.old book.new result }
{
    let total = run.count + usize::from(run.draws);
    let mut t = Tally {
        accepted: 0,
        pairs: 0,
        serviced: 0,
        next: 0,
        clock: Clock {
            value: run.seed,
            draw: 0,
        },
    };
    for _turn in 0..total {
        let order = run.sends[capped(t.next)];
        t = take_turn(run, order, words, book, t);
    }
    t
}

// A valid run played from the empty state, the book large enough: its words are a local's, lent to the loop. The run comes by
// value: where `play` lends it, the compiler keeps a second one, and the stack is above its bound (scripts/stack.sh).
fn play_run(run: Run, book: &mut [u8]) -> Counts
    requires { Playable run (length book.old) }
    ensures { (result ≡ counts_of (played_run run)) × (book.new ≡ book_in run book.old) }
{
    let mut words = [0u64; WORDS];
    let t = play_turns(&run, &mut words, book);
    Counts {
        accepted: t.accepted,
        pairs: t.pairs,
        serviced: t.serviced,
        owed: owed_in_place(&words),
    }
}

// The player, for any bytes and any lent room: refusals 1 to 8, 14 and 17, or the run played and its book at the room's front.
pub fn play(bytes: &[u8], book: &mut [u8]) -> Result<Counts, Refusal>
    ensures { (told_play result ≡ play_answer bytes.now (length book.old))
        × (book.new ≡ play_book bytes.now book.old) }
{
    let started = start(bytes, book.len());
    if let Some(refusal) = started.refused {
        return Err(refusal);
    }
    Ok(play_run(started.run, book))
}
