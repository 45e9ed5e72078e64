// RUN, SEND and the player of `machine` once more, each a call under the same contract, and two draws in a row by single
// RUNs. Nothing that is shipped uses this crate: its must-fail edits are wrong programs that the contracts of `machine`
// refuse, which here takes seconds.
#![tactic(auto)]

ghost use Rattle.std.specs.Prelude.{◌≡◌, length};
ghost use Rattle.model.specs.Events as events;
ghost use Rattle.machine.specs.Play.{play_answer, play_book, told_play};
ghost use Rattle.callers.specs.TwoDraws.{two_draws};

use base::Refusal;
use draws::Event;
use types::{AfterRun, AfterSend, Counts, Network, Sent, State};

// RUN (site, code): the answer and the next state; a refusal hands the state back.
pub fn run(network: Network, state: State, site: usize, code: usize) -> AfterRun
    ensures { result ≡ events.ran network state site code }
{
    let after = machine::run(network, state, site, code);
    let answer = after.answer;
    let blocking = after.blocking;
    let next = after.state;
    AfterRun {
        answer,
        blocking,
        state: next,
    }
}

// SEND (site, set): the packet number and the next state; a refusal hands the state back.
pub fn send(network: Network, state: State, site: usize, set: u64) -> AfterSend
    ensures { result ≡ events.sent network state site set }
{
    let after = machine::send(network, state, site, set);
    let Sent::Accepted(packet) = after.answer else {
        return after;
    };
    AfterSend {
        answer: Sent::Accepted(packet),
        state: after.state,
    }
}

// The player, for any bytes and any lent room: refusals 1 to 8, 17 and 14, or the run played and its book at the room's
// front.
pub fn play(bytes: &[u8], book: &mut [u8]) -> Result<Counts, Refusal>
    ensures { (told_play result ≡ play_answer bytes.now (length book.old))
        × (book.new ≡ play_book bytes.now book.old) }
{
    // (Named for the edits of must-fail/, which change what is answered.)
    let played = machine::play(bytes, book);
    played
}

// The same with a second room lent, of which no byte changes.
pub fn play_beside(bytes: &[u8], book: &mut [u8], beside: &mut [u8]) -> Result<Counts, Refusal>
    ensures { (told_play result ≡ play_answer bytes.now (length book.old))
        × (book.new ≡ play_book bytes.now book.old)
        × (beside.new ≡ beside.old) }
{
    machine::play(bytes, book)
}

// Draws 0 and 1 from a seed on, each its single RUN, the second on the state that the first left: the second's answer,
// and the state after it.
pub fn two_draws(network: Network, state: State, seed: u32) -> AfterRun
    ensures { result ≡ two_draws network state seed }
{
    let none = Event { site: 0, code: 0 };
    let value = draws::draw(seed);
    let event = draws::event_of(value, network.sites, network.edition).unwrap_or(none);
    let first = machine::run(network, state, event.site, event.code);
    let value_2 = draws::draw(value);
    let event_2 = draws::event_of(value_2, network.sites, network.edition).unwrap_or(none);
    let second = machine::run(network, first.state, event_2.site, event_2.code);
    second
}
