// What RUN sees of a state, and what it leaves of it: the site, then the far input into the changed sites. A function
// that reads or stores a site by its number has a copy of the State to itself: so one reads all that RUN sees, and
// where RUN is idle none stores.
ghost use Rattle.std.specs.Prelude.{◌≡◌, cond, ◌<◌, ◌*◌, ◌/◌, ◌%◌};
ghost use Rattle.base.specs.Sizes.{sites_most, port_count};
ghost use Rattle.model.specs.Types.{no_input, in_at};
ghost use Rattle.model.specs.Network.{is_channel, end_port};
ghost use Rattle.machine.specs.Step.{seen_at, stored_state, answer_to, passed, EndsWithin, Passable};

use crate::heard::{channel_at, is_channel};
use crate::step::Act;
use rules::free_input;
use types::{Input, Network, Ran, Site, State};

// What RUN sees at a site: the site, and the inputs at the ends of its four channels.
#[derive(Clone, Copy)]
pub struct Seen {
    pub site: Site,
    pub far: [Input; base::PORTS],
}

// The site at the end of a channel; where there is no channel some site.
fn end_site(channel: u16) -> usize
    ensures { result ≡ channel / port_count % sites_most }
{
    usize::from(channel / 4) % base::SITES
}

// The input at the end of a channel, of the site there; a free one where there is no channel.
fn end_of(site: Site, channel: u16) -> Input
    ensures { result ≡ cond (is_channel channel) (in_at site (end_port channel)) no_input }
{
    if is_channel(channel) {
        return site.inputs[usize::from(channel % 4) + 1];
    }
    free_input()
}

// What RUN sees at site s.
pub(crate) fn seen_at(network: Network, state: State, s: usize) -> Seen
    requires site { s < sites_most }
    requires ends { EndsWithin network s }
    ensures { result ≡ seen_at network state.sites s }
{
    // Written out for the four channels: of `array::from_fn` over a closure that reads the state the check finds no proof.
    let first = channel_at(network, s, 0);
    let second = channel_at(network, s, 1);
    let third = channel_at(network, s, 2);
    let fourth = channel_at(network, s, 3);
    let a = state.sites[end_site(first)];
    let b = state.sites[end_site(second)];
    let c = state.sites[end_site(third)];
    let d = state.sites[end_site(fourth)];
    Seen {
        site: state.sites[s],
        far: [
            end_of(a, first),
            end_of(b, second),
            end_of(c, third),
            end_of(d, fourth),
        ],
    }
}

// Site s becomes `site`, then the input at the end of this channel becomes `input`: it may be of that
// very site.
fn pass_on(state: State, s: usize, site: Site, channel: u16, input: Input) -> State
    requires { (s < sites_most) × (channel < port_count * sites_most) }
    ensures { result ≡ passed state s site channel input }
{
    let u = usize::from(channel / 4);
    let k = usize::from(channel % 4) + 1;
    let mut next = state;
    next.sites[s] = site;
    let mut far = next.sites[u];
    far.inputs[k] = input;
    next.sites[u] = far;
    next
}

// The state after RUN at site s; where it does nothing it is handed back as it is.
pub(crate) fn store_act(state: State, s: usize, act: Act) -> State
    requires site { s < sites_most }
    requires passable { Passable act }
    ensures { result ≡ stored_state state s act }
{
    match act {
        Act::Idle => state,
        Act::Own(site) | Act::Serve(site, _) => {
            let mut next = state;
            next.sites[s] = site;
            next
        }
        Act::Pass(site, channel, input) => pass_on(state, s, site, channel, input),
    }
}

// RUN's answer to what it did at site s.
pub(crate) fn answer_to(act: &Act, s: usize) -> Ran
    requires { s < sites_most }
    ensures { result ≡ answer_to act.now s }
{
    match act {
        Act::Idle => Ran::Nothing,
        Act::Own(_) | Act::Pass(_, _, _) => Ran::Changed,
        Act::Serve(_, packet) => Ran::Serviced(*packet, s as u8),
    }
}
