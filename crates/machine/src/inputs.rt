// The rule of a net-input: seek asks the router with the network, every other state is decided by the state alone;
// and the outputs in the way that RUN names where the router failed.
ghost use Rattle.std.specs.Prelude.{◌≡◌, ◌<◌, ◌≤◌, ◌^◌};
ghost use Rattle.base.specs.Sizes.{sites_most, input_count};
ghost use Rattle.model.specs.Types as spec;
ghost use Rattle.types.specs.Numbers.{state_number};
ghost use Rattle.model.specs.NetInput as rule;
ghost use Rattle.rules.specs.Turns.{of_input_turn};
ghost use Rattle.model.specs.Steps.{blocking_at};
ghost use Rattle.machine.specs.Step.{Runnable};

use rules::InputTurn;
use types::{Input, Network, Output, Phase, Site};

// Net-input i of site s, by its state; ready tells which outputs are ready.
pub(crate) fn net_input(
    network: Network,
    s: usize,
    i: usize,
    input: Input,
    outputs: [Output; base::OUTPUTS],
    ready: [bool; base::OUTPUTS],
) -> Option<InputTurn>
    requires { (s < network.sites) × (network.sites ≤ sites_most) × (i < input_count) ×
        (state_number input.phase ≡ 1 → (0 < input.set) × (input.set < 2 ^ network.sites)) }
    ensures { result ≡ of_input_turn (rule.net_input network s i input outputs (spec.mark ready)) }
{
    match input.phase {
        Phase::Seek => {
            let choice = rules::route_packet(network, s, outputs, input.set);
            rules::seek_turn(network.tries, i as u8, input, outputs, choice)
        }
        _ => rules::other_input(input, outputs, ready),
    }
}

// The outputs in the way that RUN names at site s: those that the step of a net-input passes on; no other code has any.
pub(crate) fn blocking_at(network: Network, s: usize, site: Site, code: usize) -> u64
    requires { Runnable network s site }
    ensures { result ≡ blocking_at network s site code }
{
    if code < base::INPUTS {
        return rules::input_blocking(network, s, site.inputs[code], site.outputs);
    }
    0
}
