// RUN on a site by value: what the event sees in (the site, the inputs at the ends of its channels), what becomes of it out.
ghost use Rattle.std.specs.Prelude.{◌≡◌, ◌<◌, ◌≤◌};
ghost use Rattle.base.specs.Sizes.{sites_most, input_count, in_queue_count, port_count};
ghost use Rattle.model.specs.Types as spec;
ghost use Rattle.model.specs.Steps as steps;
ghost use Rattle.machine.specs.Step.{of_act, far_at, Runnable};
ghost use Rattle.rules.specs.Acts.{input_act, local_act, channel_act, queue_act, operator_act, timeout_act};

use crate::heard::{channel_at, ends_there, is_channel, ready_outputs};
use crate::inputs::net_input;
use rules::{channel_output, local_output, operator, out_queue, time_out};
use types::{Input, Network, Site};

// What RUN does: nothing; the site after it; the same, and a service of a packet; the same, and a channel with the input at
// its end after it.
#[derive(Clone, Copy)]
pub enum Act {
    Idle,
    Own(Site),
    Serve(Site, u8),
    Pass(Site, u16, Input),
}

// Codes 0 to 4: net-input i.
fn input_step(network: Network, s: usize, site: Site, far: [Input; base::PORTS], i: usize) -> Act
    requires runnable { Runnable network s site }
    requires place { i < input_count }
    ensures { result ≡ of_act network s (input_act network s site (far_at far) i) }
{
    let there = ends_there(network, s);
    let ready = ready_outputs(there, far, site.outputs);
    let Some(turn) = net_input(network, s, i, site.inputs[i], site.outputs, ready) else {
        return Act::Idle;
    };
    let outputs = turn.outputs;
    let mut next = site;
    next.outputs = outputs;
    next.inputs[i] = turn.input;
    Act::Own(next)
}

// Codes 5 and 13: the net-output that fills in-queue m, output 0 or the split output.
fn local_step(network: Network, s: usize, site: Site, m: usize) -> Act
    requires { m < in_queue_count }
    ensures { result ≡ of_act network s (local_act network.depth site m) }
{
    let j = base::SPLIT_PORT * m;
    let Some(turn) = local_output(network.depth, site.outputs[j], site.incoming[m]) else {
        return Act::Idle;
    };
    let mut next = site;
    next.incoming[m] = turn.queue;
    next.outputs[j] = turn.output;
    Act::Own(next)
}

// Codes 6 to 9: net-output j + 1.
fn channel_step(network: Network, s: usize, site: Site, far: [Input; base::PORTS], j: usize) -> Act
    requires { (s < sites_most) × (j < port_count) }
    ensures { result ≡ of_act network s (channel_act network s site (far_at far) j) }
{
    let channel = channel_at(network, s, j);
    let there = is_channel(channel);
    let Some(turn) = channel_output(network.edition, there, site.outputs[j + 1], far[j]) else {
        return Act::Idle;
    };
    let mut next = site;
    next.outputs[j + 1] = turn.output;
    Act::Pass(next, channel, turn.input)
}

// Code 10: the out-queue.
fn queue_step(network: Network, s: usize, site: Site) -> Act
    ensures { result ≡ of_act network s (queue_act site) }
{
    let Some(turn) = out_queue(site.outgoing, site.inputs[0]) else {
        return Act::Idle;
    };
    let mut next = site;
    next.outgoing = turn.queue;
    next.inputs[0] = turn.input;
    Act::Own(next)
}

// Codes 11 and 14: the operator of in-queue m.
fn operator_step(network: Network, s: usize, site: Site, m: usize) -> Act
    requires { m < in_queue_count }
    ensures { result ≡ of_act network s (operator_act network.depth s site m) }
{
    let Some(turn) = operator(network.depth, s, site.incoming[m], site.outgoing) else {
        return Act::Idle;
    };
    let mut next = site;
    next.incoming[m] = turn.incoming;
    next.outgoing = turn.outgoing;
    match turn.serviced {
        Some(packet) => Act::Serve(next, packet),
        None => Act::Own(next),
    }
}

// Code 12: the timeout.
fn timeout_step(network: Network, s: usize, site: Site) -> Act
    requires { (spec.out_at site 0).input < input_count }
    ensures { result ≡ of_act network s (timeout_act network.edition site) }
{
    let i = usize::from(site.outputs[0].input);
    let Some(turn) = time_out(
        network.edition,
        site.incoming[0],
        site.outputs,
        site.inputs[i],
    ) else {
        return Act::Idle;
    };
    let outputs = turn.outputs;
    let mut next = site;
    next.outputs = outputs;
    next.inputs[i] = turn.input;
    Act::Own(next)
}

// Codes 5 to 9: net-output j.
fn output_step(network: Network, s: usize, site: Site, far: [Input; base::PORTS], j: usize) -> Act
    requires runnable { Runnable network s site }
    requires place { j ≤ port_count }
    ensures { result ≡ of_act network s (steps.net_output network s site (far_at far) j) }
{
    if j == 0 {
        return local_step(network, s, site, 0);
    }
    channel_step(network, s, site, far, j - 1)
}

// RUN at site s: codes 0 to 4 are the net-inputs, 5 to 9 the net-outputs, 10 the out-queue, 11 the operator, 12 the timeout, 13 the
// split output, 14 its operator.
#[tactic(auto, unfolding(model::specs::Steps::act))]
pub(crate) fn step(
    network: Network,
    s: usize,
    site: Site,
    far: [Input; base::PORTS],
    code: usize,
) -> Act
    requires { Runnable network s site }
    ensures { result ≡ of_act network s (steps.act network s site (far_at far) code) }
{
    match code {
        0..=4 => input_step(network, s, site, far, code),
        5..=9 => output_step(network, s, site, far, code - 5),
        10 => queue_step(network, s, site),
        11 => operator_step(network, s, site, 0),
        12 => timeout_step(network, s, site),
        13 => local_step(network, s, site, 1),
        14 => operator_step(network, s, site, 1),
        _ => Act::Idle,
    }
}
