// Places read from the words of a state, and what is cheap to see of a place before it is read.
ghost use Rattle.std.specs.Prelude.{◌≡◌, ◌&&◌, ◌<◌};
ghost use Rattle.base.specs.Sizes.{sites_most, input_count, output_count, in_queue_count, queue_room};
ghost use Rattle.types.specs.Numbers.{state_number};
ghost use Rattle.types.specs.Phases.{is_none};
ghost use Rattle.model.specs.Types.{site_at, in_at, out_at, queue_at, in_entry, carries};
ghost use Rattle.model.specs.Places.{stalled};
ghost use Rattle.layout.specs.Layout.{site_places};
ghost use Rattle.layout.specs.Words as spec;

use crate::pack::{in_entry_from, input_from, out_entry_from, output_from, phase_from};
use layout::{
    ARRIVED_FROM, COUNTER_AT, COUNTS_FROM, LEAVING_FROM, OUTPUTS_FROM, SITE_PLACES, WORDS,
};
use std::array;
use types::{InEntry, InQueue, Input, OutEntry, OutQueue, Output, Phase, Site};

// The two words of place k of site s.
pub(crate) fn set_at(words: &[u64; WORDS], s: usize, k: usize) -> u64
    requires { (s < sites_most) × (k < site_places) }
    ensures { result ≡ spec.set_at words.now s k }
{
    words[2 * (SITE_PLACES * s + k)]
}

pub(crate) fn fields_at(words: &[u64; WORDS], s: usize, k: usize) -> u64
    requires { (s < sites_most) × (k < site_places) }
    ensures { result ≡ spec.fields_at words.now s k }
{
    words[2 * (SITE_PLACES * s + k) + 1]
}

// Net-input i of site s.
pub(crate) fn load_input(words: &[u64; WORDS], s: usize, i: usize) -> Input
    requires { (s < sites_most) × (i < input_count) }
    ensures { result ≡ in_at (site_at (spec.sites_of words.now) s) i }
{
    input_from(set_at(words, s, i), fields_at(words, s, i))
}

// Net-output j of site s.
pub(crate) fn load_output(words: &[u64; WORDS], s: usize, j: usize) -> Output
    requires { (s < sites_most) × (j < output_count) }
    ensures { result ≡ out_at (site_at (spec.sites_of words.now) s) j }
{
    output_from(
        set_at(words, s, OUTPUTS_FROM + j),
        fields_at(words, s, OUTPUTS_FROM + j),
    )
}

pub(crate) fn load_outputs(words: &[u64; WORDS], s: usize) -> [Output; base::OUTPUTS]
    requires { s < sites_most }
    ensures { result ≡ (site_at (spec.sites_of words.now) s).outputs }
{
    array::from_fn(|j| load_output(words, s, j))
}

pub(crate) fn load_inputs(words: &[u64; WORDS], s: usize) -> [Input; base::INPUTS]
    requires { s < sites_most }
    ensures { result ≡ (site_at (spec.sites_of words.now) s).inputs }
{
    array::from_fn(|i| load_input(words, s, i))
}

// Entry m of site s's out-queue.
pub(crate) fn load_out_entry(words: &[u64; WORDS], s: usize, m: usize) -> OutEntry
    requires { (s < sites_most) × (m < queue_room) }
    ensures { result ≡ spec.leaving_at words.now s m }
{
    out_entry_from(
        set_at(words, s, LEAVING_FROM + m),
        fields_at(words, s, LEAVING_FROM + m),
    )
}

// Entry m of site s's in-queue q.
pub(crate) fn load_in_entry(words: &[u64; WORDS], s: usize, q: usize, m: usize) -> InEntry
    requires { (s < sites_most) × (q < in_queue_count) × (m < queue_room) }
    ensures { result ≡ spec.arrived_at words.now s q m }
{
    let k = ARRIVED_FROM + (base::QUEUE * q + m);
    in_entry_from(set_at(words, s, k), fields_at(words, s, k))
}

pub(crate) fn out_count(words: &[u64; WORDS], s: usize) -> usize
    requires { s < sites_most }
    ensures { result ≡ (site_at (spec.sites_of words.now) s).outgoing.count }
{
    set_at(words, s, COUNTS_FROM) as usize
}

// The entries of site s's in-queue q.
pub(crate) fn in_count(words: &[u64; WORDS], s: usize, q: usize) -> usize
    requires { (s < sites_most) × (q < in_queue_count) }
    ensures { result ≡ (queue_at (site_at (spec.sites_of words.now) s) q).count }
{
    set_at(words, s, COUNTS_FROM + 1 + q) as usize
}

pub(crate) fn load_out_queue(words: &[u64; WORDS], s: usize) -> OutQueue
    requires { s < sites_most }
    ensures { result ≡ (site_at (spec.sites_of words.now) s).outgoing }
{
    OutQueue {
        entries: array::from_fn(|m| load_out_entry(words, s, m)),
        count: out_count(words, s),
    }
}

// In-queue q of site s.
pub(crate) fn load_in_queue(words: &[u64; WORDS], s: usize, q: usize) -> InQueue
    requires { (s < sites_most) × (q < in_queue_count) }
    ensures { result ≡ queue_at (site_at (spec.sites_of words.now) s) q }
{
    InQueue {
        entries: array::from_fn(|m| load_in_entry(words, s, q, m)),
        count: in_count(words, s, q),
    }
}

pub(crate) fn load_in_queues(words: &[u64; WORDS], s: usize) -> [InQueue; base::IN_QUEUES]
    requires { s < sites_most }
    ensures { result ≡ (site_at (spec.sites_of words.now) s).incoming }
{
    array::from_fn(|q| load_in_queue(words, s, q))
}

pub(crate) fn load_site(words: &[u64; WORDS], s: usize) -> Site
    requires { s < sites_most }
    ensures { result ≡ site_at (spec.sites_of words.now) s }
{
    let inputs = load_inputs(words, s);
    let outputs = load_outputs(words, s);
    let outgoing = load_out_queue(words, s);
    let incoming = load_in_queues(words, s);
    Site {
        inputs,
        outputs,
        outgoing,
        incoming,
    }
}

// The packet number that the next SEND takes.
pub(crate) fn load_counter(words: &[u64; WORDS]) -> u8
    ensures { result ≡ (spec.state_of words.now).counter }
{
    (words[COUNTER_AT] % 256) as u8
}

// ---- what is seen of a place by its packed word alone

// The state number of net-input i.
pub(crate) fn state_of(words: &[u64; WORDS], s: usize, i: usize) -> u64
    requires { (s < sites_most) × (i < input_count) }
    ensures { result ≡ state_number (in_at (site_at (spec.sites_of words.now) s) i).phase }
{
    fields_at(words, s, i) % 8
}

// The state of net-input i.
pub(crate) fn phase_of(words: &[u64; WORDS], s: usize, i: usize) -> Phase
    requires { (s < sites_most) × (i < input_count) }
    ensures { result ≡ (in_at (site_at (spec.sites_of words.now) s) i).phase }
{
    phase_from(fields_at(words, s, i))
}

// Whether net-output j is in use, not closing, with its head taken.
pub(crate) fn is_taken(words: &[u64; WORDS], s: usize, j: usize) -> bool
    requires { (s < sites_most) × (j < output_count) }
    ensures { result ≡
        (carries (out_at (site_at (spec.sites_of words.now) s) j) && (out_at
        (site_at (spec.sites_of words.now) s) j).head) }
{
    let w = fields_at(words, s, OUTPUTS_FROM + j);
    (w % 4 == 3) & !(w / 16 % 2 == 1)
}

// Whether net-output j is stalled: in use, not closing, its head taken, no terminator.
pub(crate) fn is_stalled(words: &[u64; WORDS], s: usize, j: usize) -> bool
    requires { (s < sites_most) × (j < output_count) }
    ensures { result ≡ stalled (out_at (site_at (spec.sites_of words.now) s) j) }
{
    fields_at(words, s, OUTPUTS_FROM + j) % 32 == 3
}

// Whether net-output j is in use.
pub(crate) fn is_used(words: &[u64; WORDS], s: usize, j: usize) -> bool
    requires { (s < sites_most) × (j < output_count) }
    ensures { result ≡ (out_at (site_at (spec.sites_of words.now) s) j).used }
{
    fields_at(words, s, OUTPUTS_FROM + j) % 2 == 1
}

// The net-input that feeds net-output 0.
pub(crate) fn feeder_of(words: &[u64; WORDS], s: usize) -> usize
    requires { s < sites_most }
    ensures { result ≡ (out_at (site_at (spec.sites_of words.now) s) 0).input }
{
    (fields_at(words, s, OUTPUTS_FROM) / 256 % 256) as usize
}

// Whether the front entry of in-queue q lacks a terminator.
pub(crate) fn front_lacks(words: &[u64; WORDS], s: usize, q: usize) -> bool
    requires { (s < sites_most) × (q < in_queue_count) }
    ensures { result ≡ is_none (in_entry (queue_at (site_at (spec.sites_of words.now) s) q) 0).terminator }
{
    fields_at(words, s, ARRIVED_FROM + base::QUEUE * q) % 4 == 0
}
