// RUN in place, a function an arm: it looks at the packed words (an idle place ends there), then asks the rule and stores what changed.
ghost use Rattle.std.specs.Prelude.{◌≡◌, true, suc, ◌<◌};
ghost use Rattle.base.specs.Sizes.{sites_most, input_count, output_count, port_count, in_queue_count};
ghost use Rattle.model.specs.Types.{out_at};
ghost use Rattle.model.specs.Places.{channel_output};
ghost use Rattle.model.specs.Network.{is_channel};
ghost use Rattle.layout.specs.Layout.{end_count};
ghost use Rattle.layout.specs.Words.{sites_of};
ghost use Rattle.layout.specs.Idle.{at_rest};
ghost use Rattle.rules.specs.Acts.{local_act, operator_act, queue_act, timeout_act};
ghost use Rattle.words.specs.Events as spec;
ghost use Rattle.words.specs.Events.{DidOwn, site_in};

use crate::load::{feeder_of, front_lacks, in_count, is_stalled, is_used, load_input, out_count};
use crate::marked::cutting;
use crate::puts::{put_channel, put_input, put_local, put_queue, put_work};
use crate::turns::{channel_turn, local_turn, operator_turn, queue_turn, timeout_turn};
use layout::WORDS;
use rules::can_cut;
use types::Ran;

// Whether net-output j has nothing to do: it is empty, or its head is taken and its terminator has not come.
fn is_at_rest(words: &[u64; WORDS], s: usize, j: usize) -> bool
    requires { (s < sites_most) × (j < output_count) }
    ensures { result ≡ at_rest (out_at (site_in words.now s) j) }
{
    !is_used(words, s, j) | is_stalled(words, s, j)
}

// Codes 5 and 13: the net-output that fills in-queue q, output 0 or the split output.
pub(crate) fn local_in_place(depth: usize, words: &mut [u64; WORDS], s: usize, q: usize) -> Ran
    requires { (s < sites_most) × (q < in_queue_count) }
    ensures { DidOwn words.old words.new s result (local_act depth (site_in words.old s) q) }
{
    if is_at_rest(words, s, base::SPLIT_PORT * q) {
        return Ran::Nothing;
    }
    let turn = local_turn(depth, words, s, q);
    put_local(words, s, q, turn)
}

// Codes 6 to 9: net-output j + 1; its channel is at hand.
pub(crate) fn channel_in_place(
    edition: u8,
    words: &mut [u64; WORDS],
    s: usize,
    j: usize,
    channel: u16,
) -> Ran
    requires { (s < sites_most) × (j < port_count) × (is_channel channel ≡ true → channel < end_count) }
    ensures { spec.DidPass words.old words.new s result j channel
        (channel_output edition (is_channel channel) (out_at (site_in words.old s) (suc j))
        (spec.end_of (sites_of words.old) channel)) }
{
    if is_at_rest(words, s, j + 1) || channel == base::NO_CHANNEL {
        return Ran::Nothing;
    }
    let turn = channel_turn(edition, words, s, j, channel);
    put_channel(words, s, j, channel, turn)
}

// Code 10: the out-queue.
pub(crate) fn queue_in_place(words: &mut [u64; WORDS], s: usize) -> Ran
    requires { s < sites_most }
    ensures { DidOwn words.old words.new s result (queue_act (site_in words.old s)) }
{
    if out_count(words, s) == 0 {
        return Ran::Nothing;
    }
    let turn = queue_turn(words, s);
    put_queue(words, s, turn)
}

// Codes 11 and 14: the operator at in-queue q.
pub(crate) fn operator_in_place(depth: usize, words: &mut [u64; WORDS], s: usize, q: usize) -> Ran
    requires { (s < sites_most) × (q < in_queue_count) }
    ensures { DidOwn words.old words.new s result (operator_act depth s (site_in words.old s) q) }
{
    if (in_count(words, s, q) == 0) | front_lacks(words, s, q) {
        return Ran::Nothing;
    }
    let turn = operator_turn(depth, words, s, q);
    put_work(words, s, q, turn)
}

// Code 12: the timeout, of which edition 3 has none.
pub(crate) fn timeout_in_place(edition: u8, words: &mut [u64; WORDS], s: usize) -> Ran
    requires { (s < sites_most) × ((out_at (site_in words.old s) 0).input < input_count) }
    ensures { DidOwn words.old words.new s result (timeout_act edition (site_in words.old s)) }
{
    if draws::is_restricted(edition) || !is_stalled(words, s, 0) {
        return Ran::Nothing;
    }
    let i = feeder_of(words, s);
    let input = load_input(words, s, i);
    if !can_cut(input.phase) {
        return Ran::Nothing;
    }
    let marks = cutting(input.outputs);
    let turn = timeout_turn(edition, words, s, marks, input);
    put_input(words, s, i, marks, turn)
}
