// Is this state in range for this network: the refusal 13; with the network's own 2, 17, 3, 6 and 7 these are the refusals
// that SEND and RUN share. Every place of every site is looked at, also room beyond a queue's count and beyond S; a place is
// tested as an empty one or as a used one. Takes any network and any state.
mod phases;
mod places;

ghost use Rattle.std.specs.Prelude.{◌≡◌, ◌&&◌};
ghost use Rattle.base.specs.Refusals.{refusal_of};
ghost use Rattle.model.specs.Range as spec;
ghost use Rattle.model.specs.Events.{refusal_then};
ghost use Rattle.checks.specs.Range.{net_places_ok, in_queues_ok};

use crate::network::network_refusal;
use crate::range::places::{Limits, in_entry_ok, input_ok, out_entry_ok, output_ok};
use base::Refusal;
use types::{InQueue, Input, Network, OutQueue, Output, Site, State};

// The net-inputs and the net-outputs of a site: five of each, and the split output.
fn net_places_ok(
    limits: Limits,
    inputs: [Input; base::INPUTS],
    outputs: [Output; base::OUTPUTS],
) -> bool
    ensures { result ≡ net_places_ok limits.edition limits.sites limits.tries limits.counter inputs outputs }
{
    let split = outputs[base::SPLIT_PORT];
    (0..base::INPUTS).all(|i| {
        input_ok(limits, outputs, i, inputs[i]) & output_ok(limits, i, outputs[i])
    }) & output_ok(limits, base::SPLIT_PORT, split)
}

// The out-queue: eight places. (A function for each kind of queue, as there is a struct for each.)
fn out_queue_ok(limits: Limits, queue: OutQueue) -> bool
    ensures { result ≡ spec.out_queue_ok limits.sites limits.depth limits.counter queue }
{
    (queue.count <= limits.depth)
        & (0..base::QUEUE).all(|m| out_entry_ok(limits, queue.count, m, queue.entries[m]))
}

// An in-queue: eight places.
fn in_queue_ok(limits: Limits, queue: InQueue) -> bool
    ensures { result ≡ spec.in_queue_ok limits.sites limits.depth limits.counter queue }
{
    (queue.count <= limits.depth)
        & (0..base::QUEUE).all(|m| in_entry_ok(limits, queue.count, m, queue.entries[m]))
}

// The depth of in-queue m: that of the split output has none but in edition 3.
fn depth_of(edition: u8, depth: usize, m: usize) -> usize
    ensures { result ≡ spec.depth_of edition depth m }
{
    if (m == 0) | draws::is_restricted(edition) {
        depth
    } else {
        0
    }
}

// Both in-queues.
fn in_queues_ok(limits: Limits, incoming: [InQueue; base::IN_QUEUES]) -> bool
    ensures { result ≡ in_queues_ok limits.edition limits.sites limits.depth limits.counter incoming }
{
    (0..base::IN_QUEUES).all(|m| {
        let depth = depth_of(limits.edition, limits.depth, m);
        in_queue_ok(Limits { depth, ..limits }, incoming[m])
    })
}

// The queues of a site.
fn queues_ok(limits: Limits, outgoing: OutQueue, incoming: [InQueue; base::IN_QUEUES]) -> bool
    ensures { result ≡ spec.out_queue_ok limits.sites limits.depth limits.counter outgoing
        && in_queues_ok limits.edition limits.sites limits.depth limits.counter incoming }
{
    out_queue_ok(limits, outgoing) & in_queues_ok(limits, incoming)
}

// A site of the network. With T, D and counter 0 it is the test of room beyond S.
fn site_ok(limits: Limits, site: Site) -> bool
    ensures { result ≡ spec.site_ok limits.edition limits.sites limits.tries limits.depth limits.counter site }
{
    net_places_ok(limits, site.inputs, site.outputs)
        & queues_ok(limits, site.outgoing, site.incoming)
}

// Place s of a state's sites, with the edition, S, T, D and the counter: a site of the network, or room beyond S.
// (The limits stay apart here: `place_ok_settled` is of the five numbers.)
pub fn place_ok(
    edition: u8,
    sites: usize,
    tries: u8,
    depth: usize,
    counter: u8,
    s: usize,
    site: Site,
) -> bool
    ensures { result ≡ spec.place_ok edition sites tries depth counter s site }
{
    let limits = Limits {
        edition,
        sites,
        tries,
        depth,
        counter,
    };
    if s < sites {
        return site_ok(limits, site);
    }
    let none = Limits {
        tries: 0,
        depth: 0,
        counter: 0,
        ..limits
    };
    site_ok(none, site)
}

// Whether the state is in range for the network.
pub fn is_in_range(network: Network, state: State) -> bool
    ensures { result ≡ spec.in_range network state }
{
    let Network {
        edition,
        sites,
        tries,
        depth,
        ..
    } = network;
    let counter = state.counter;
    (0..base::SITES).all(|s| place_ok(edition, sites, tries, depth, counter, s, state.sites[s]))
}

// The refusals that SEND and RUN share: 2, 17, 3, 6, 7 of the network, 13 for a state that is not in range.
pub fn event_refusal(network: Network, state: State) -> Result<(), Refusal>
    ensures { refusal_of result ≡ refusal_then network state 0 }
{
    network_refusal(network)?;
    if !is_in_range(network, state) {
        return Err(Refusal::State);
    }
    Ok(())
}
