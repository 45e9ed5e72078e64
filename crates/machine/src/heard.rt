// Which channels a site has, and which of its outputs are ready.
ghost use Rattle.std.specs.Prelude.{◌≡◌, suc, ◌<◌, ◌&&◌};
ghost use Rattle.base.specs.Sizes.{sites_most, port_count};
ghost use Rattle.model.specs.Network as net;
ghost use Rattle.model.specs.Types.{carries};
ghost use Rattle.model.specs.NetInput as rule;
ghost use Rattle.machine.specs.Step.{far_at, there_at, flags, four_flags};

use rules::is_listening;
use types::{Input, Network, Output};

// Whether there is a channel.
pub(crate) fn is_channel(channel: u16) -> bool
    ensures { result ≡ net.is_channel channel }
{
    channel != base::NO_CHANNEL
}

// Whether an output is in use, not closing, with its head taken.
fn is_taken(output: Output) -> bool
    ensures { result ≡ (carries output && output.head) }
{
    output.used & !output.closing & output.head
}

// The channel of output j + 1 of site s.
pub(crate) fn channel_at(network: Network, s: usize, j: usize) -> u16
    requires { (s < sites_most) × (j < port_count) }
    ensures { result ≡ net.channel network s (suc j) }
{
    // In a local of its own: indexed within the network, the compiler copies the whole network for each read.
    let channels = network.channels;
    channels[base::PORTS * s + j]
}

// Whether output j + 1 of site s has a channel.
fn is_joined(network: Network, s: usize, j: usize) -> bool
    requires { (s < sites_most) × (j < port_count) }
    ensures { result ≡ net.joined network s (suc j) }
{
    is_channel(channel_at(network, s, j))
}

// Which of the outputs 1 to 4 of site s have a channel.
pub(crate) fn ends_there(network: Network, s: usize) -> [bool; base::PORTS]
    requires { s < sites_most }
    ensures { result ≡ four_flags (λ j. net.joined network s (suc j)) }
{
    std::array::from_fn(|j| is_joined(network, s, j))
}

// Whether output j + 1 is ready: it has a channel, and the input at its end is open or abort.
fn is_heard(
    there: [bool; base::PORTS],
    far: [Input; base::PORTS],
    outputs: [Output; base::OUTPUTS],
    j: usize,
) -> bool
    requires { j < port_count }
    ensures { result ≡ rule.ready (there_at there) (far_at far) outputs (suc j) }
{
    is_taken(outputs[j + 1]) & (there[j] & is_listening(far[j].phase))
}

// Which outputs are ready, output 0 and the split output if they are taken; there tells which of 1 to 4 have a channel,
// far has the inputs at their ends.
pub(crate) fn ready_outputs(
    there: [bool; base::PORTS],
    far: [Input; base::PORTS],
    outputs: [Output; base::OUTPUTS],
) -> [bool; base::OUTPUTS]
    ensures { result ≡ flags (rule.ready (there_at there) (far_at far) outputs) }
{
    // Written out, a row for each output: the first and the last ask another test than those between them.
    [
        is_taken(outputs[0]),
        is_heard(there, far, outputs, 0),
        is_heard(there, far, outputs, 1),
        is_heard(there, far, outputs, 2),
        is_heard(there, far, outputs, 3),
        is_taken(outputs[base::SPLIT_PORT]),
    ]
}
