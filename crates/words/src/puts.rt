// What became of the places of a rule, stored if they changed, with RUN's answer.
ghost use Rattle.std.specs.Prelude.{◌<◌};
ghost use Rattle.base.specs.Sizes.{sites_most, input_count, port_count, in_queue_count};
ghost use Rattle.model.specs.Types.{set_in, set_out, set_queue, with_out_queue, queue_port};
ghost use Rattle.model.specs.Steps.{own_turn, work_done, set_both};
ghost use Rattle.model.specs.Network.{channel};
ghost use Rattle.layout.specs.Layout.{end_count};
ghost use Rattle.words.specs.Events as spec;
ghost use Rattle.words.specs.Events.{DidOwn, site_in};
ghost use Rattle.words.specs.Marked.{merged_turn};

use crate::pairs::{store_both, store_leaving, store_local, store_passed, store_queues};
use layout::WORDS;
use rules::{ChannelTurn, InputTurn, LocalTurn, OperatorTurn, QueueTurn};
use types::Ran;

pub(crate) fn put_local(
    words: &mut [u64; WORDS],
    s: usize,
    q: usize,
    turn: Option<LocalTurn>,
) -> Ran
    requires { (s < sites_most) × (q < in_queue_count) }
    ensures { DidOwn words.old words.new s result
        (own_turn (λ o iq. set_out (set_queue (site_in words.old s) q iq) (queue_port q) o) (spec.local_back turn)) }
{
    let Some(turn) = turn else {
        return Ran::Nothing;
    };
    store_local(words, s, q, turn.queue, turn.output);
    Ran::Changed
}

pub(crate) fn put_channel(
    words: &mut [u64; WORDS],
    s: usize,
    j: usize,
    channel: u16,
    turn: Option<ChannelTurn>,
) -> Ran
    requires { (s < sites_most) × (j < port_count) × (channel < end_count) }
    ensures { spec.DidPass words.old words.new s result j channel (spec.channel_back turn) }
{
    let Some(turn) = turn else {
        return Ran::Nothing;
    };
    store_passed(words, s, j, turn.output, channel, turn.input);
    Ran::Changed
}

pub(crate) fn put_queue(words: &mut [u64; WORDS], s: usize, turn: Option<QueueTurn>) -> Ran
    requires { s < sites_most }
    ensures { DidOwn words.old words.new s result
        (own_turn (λ oq y. set_in (with_out_queue (site_in words.old s) oq) 0 y) (spec.queue_back turn)) }
{
    let Some(turn) = turn else {
        return Ran::Nothing;
    };
    store_leaving(words, s, turn.queue, turn.input);
    Ran::Changed
}

pub(crate) fn put_work(
    words: &mut [u64; WORDS],
    s: usize,
    q: usize,
    turn: Option<OperatorTurn>,
) -> Ran
    requires { (s < sites_most) × (q < in_queue_count) }
    ensures { DidOwn words.old words.new s result (work_done (site_in words.old s) q (spec.work_back turn)) }
{
    let Some(turn) = turn else {
        return Ran::Nothing;
    };
    store_queues(words, s, q, turn.incoming, turn.outgoing);
    match turn.serviced {
        Some(packet) => Ran::Serviced(packet, s as u8),
        None => Ran::Changed,
    }
}

// The marked outputs and net-input i.
pub(crate) fn put_input(
    words: &mut [u64; WORDS],
    s: usize,
    i: usize,
    marks: [bool; base::OUTPUTS],
    turn: Option<InputTurn>,
) -> Ran
    requires { (s < sites_most) × (i < input_count) }
    ensures { DidOwn words.old words.new s result
        (own_turn (set_both (site_in words.old s) i)
        (merged_turn marks (site_in words.old s).outputs (spec.input_back turn))) }
{
    let Some(turn) = turn else {
        return Ran::Nothing;
    };
    store_both(words, s, i, marks, turn.outputs, turn.input);
    Ran::Changed
}
