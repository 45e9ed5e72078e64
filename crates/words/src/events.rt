// RUN and SEND on any lent words, with their refusals 2, 17, 3, 6, 7, 13, 9, 10, 12, 11. A refusal writes nothing.
ghost use Rattle.std.specs.Prelude.{◌≡◌};
ghost use Rattle.base.specs.Refusals.{number};
ghost use Rattle.words.specs.Events.{refused_run};
ghost use Rattle.layout.specs.Public as spec;

use crate::blocking::blocking_in_place;
use crate::refusals::{form_refusal, shared_refusal};
use crate::runs::run_in_place;
use crate::sends::send_in_place;
use base::Refusal;
use layout::WORDS;
use types::{Network, Ran, RunAnswer, Sent};

// RUN turned down.
fn run_refused(refusal: Refusal) -> RunAnswer
    ensures { result ≡ refused_run (number refusal) }
{
    RunAnswer {
        answer: Ran::Refused(u8::from(refusal)),
        blocking: 0,
    }
}

// RUN (site, code) on as many words as a state has.
fn run_sized(network: &Network, words: &mut [u64; WORDS], site: usize, code: usize) -> RunAnswer
    ensures { record { answer = result.answer; blocking = result.blocking; words = words.new } ≡
        spec.ran_words network.now words.old site code }
{
    if let Err(refusal) = shared_refusal(network, words) {
        return run_refused(refusal);
    }
    let codes = draws::codes_in(network.edition);
    if (site < network.sites) & (code < codes) {
        let blocking = blocking_in_place(network, words, site, code);
        let answer = run_in_place(network, words, site, code);
        return RunAnswer { answer, blocking };
    }
    run_refused(Refusal::Unknown)
}

// RUN (site, code).
pub fn run(network: Network, words: &mut [u64], site: usize, code: usize) -> RunAnswer
    ensures { record { answer = result.answer; blocking = result.blocking; words = words.new } ≡
        spec.ran_words network words.old site code }
{
    match words.as_mut_array::<WORDS>() {
        Some(words) => run_sized(&network, words, site, code),
        None => run_refused(form_refusal(&network)),
    }
}

// SEND (site, set) on as many words as a state has.
fn send_sized(network: &Network, words: &mut [u64; WORDS], site: usize, set: u64) -> Sent
    ensures { record { answer = result; words = words.new } ≡ spec.sent_words network.now words.old site set }
{
    if let Err(refusal) = shared_refusal(network, words) {
        return Sent::Refused(u8::from(refusal));
    }
    send_in_place(network.sites, network.depth, words, site, set)
}

// SEND (site, set).
pub fn send(network: Network, words: &mut [u64], site: usize, set: u64) -> Sent
    ensures { record { answer = result; words = words.new } ≡ spec.sent_words network words.old site set }
{
    match words.as_mut_array::<WORDS>() {
        Some(words) => send_sized(&network, words, site, set),
        None => Sent::Refused(u8::from(form_refusal(&network))),
    }
}
