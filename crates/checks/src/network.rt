// Is this a network: the refusal 2, 17, 3, 6 or 7, or none. Room beyond S sites is not looked at. A test leaves at the first
// place that fails it. The tests of version and edition, of S, T and D, of a channel and of a route take numbers, so that
// they serve a network in lent bytes too.
ghost use Rattle.std.specs.Prelude.{◌≡◌, ◌≤◌, ◌<◌, ◌*◌, ltb};
ghost use Rattle.base.specs.Sizes.{sites_most, port_count};
ghost use Rattle.base.specs.All.{all};
ghost use Rattle.base.specs.Refusals.{refusal_of};
ghost use Rattle.model.specs.Network.{sites_in, channels_ok, route_ok, routes_ok, network_refusal};
ghost use Rattle.checks.specs.Network.{kind_in, sizes_in, parts_refusal, ports_by, ports_of, route_by};

use base::Refusal;
use types::Network;

// 2 for a version that is neither 1 nor 2, 17 for an edition that is not 1, nor 2 or 3 in version 2, else none.
pub fn kind_refusal(version: u8, edition: u8) -> Result<(), Refusal>
    ensures { refusal_of result ≡ kind_in version edition }
{
    match (version, edition) {
        (1, 1) | (2, 1 | 2) => Ok(()),
        (2, _) if draws::is_restricted(edition) => Ok(()),
        (1 | 2, _) => Err(Refusal::Edition),
        _ => Err(Refusal::Version),
    }
}

// The sites of a version at most.
fn sites_in(version: u8) -> usize
    ensures { result ≡ sites_in version }
{
    if version == 1 {
        base::FIRST_SITES
    } else {
        base::SITES
    }
}

// S, T and D within their limits, those of the version.
pub fn sizes_ok(version: u8, sites: usize, tries: u8, depth: usize) -> bool
    ensures { result ≡ sizes_in version sites tries depth }
{
    let most = sites_in(version);
    (1 <= sites) & (sites <= most) & (1 <= tries) & (1 <= depth) & (depth <= base::QUEUE)
}

// Whether a channel stands for an input of a network with so many sites: it is below 4S.
pub fn is_input(channel: u16, sites: usize) -> bool
    ensures { result ≡ ltb channel (port_count * sites) }
{
    base::wider(channel) / base::PORTS < sites
}

// No channel but none and the inputs of the network, and no input fed twice.
fn channels_ok(network: &Network) -> bool
    requires { network.now.sites ≤ sites_most }
    ensures { result ≡ channels_ok network.now }
{
    let mut fed = [false; base::PORTS * base::SITES];
    for &channel in &network.channels[..base::PORTS * network.sites] {
        if channel == base::NO_CHANNEL {
            continue;
        }
        if !is_input(channel, network.sites) {
            return false;
        }
        let input = base::wider(channel);
        if fed[input] {
            return false;
        }
        fed[input] = true;
    }
    true
}

// The hex digits that may stand in a list of a site, by whether its ports 1 to 4 have a channel: 0, and those that have.
pub fn ports_by(first: bool, second: bool, third: bool, last: bool) -> [bool; 16]
    ensures { result ≡ ports_by first second third last }
{
    [
        true, first, second, third, last, false, false, false, false, false, false, false, false,
        false, false, false,
    ]
}

// (A line for each port, as `ports_by` takes them: an iterator over four is no shorter.)
fn ports_of(network: &Network, s: usize) -> [bool; 16]
    requires { s < sites_most }
    ensures { result ≡ ports_of network.now s }
{
    let channels = &network.channels;
    let at = base::PORTS * s;
    let first = channels[at] != base::NO_CHANNEL;
    let second = channels[at + 1] != base::NO_CHANNEL;
    let third = channels[at + 2] != base::NO_CHANNEL;
    let last = channels[at + 3] != base::NO_CHANNEL;
    ports_by(first, second, third, last)
}

// The route from site s to site t, where the digits in `ports` may stand: all zero from a site to itself, else a list.
pub fn route_ok(ports: [bool; 16], s: usize, t: usize, route: u16) -> bool
    ensures { result ≡ route_by ports s t route }
{
    let w = usize::from(route);
    let a = w / 4096;
    let b = w / 256 % 16;
    let c = w / 16 % 16;
    let d = w % 16;
    let known = ports[a] & ports[b] & ports[c] & ports[d];
    let packed = ((a != 0) | (b == 0)) & ((b != 0) | (c == 0)) & ((c != 0) | (d == 0));
    let apart = ((b == 0) | (a != b))
        & ((c == 0) | ((a != c) & (b != c)))
        & ((d == 0) | ((a != d) & (b != d) & (c != d)));
    ((s == t) & (w == 0)) | ((s != t) & ((a != 0) & known & packed & apart))
}

// The routes from site s. (The network is lent: by value its routes are copied for each row.)
fn row_ok(network: &Network, s: usize) -> bool
    requires { (s < network.now.sites) × (network.now.sites ≤ sites_most) }
    ensures { result ≡ all (route_ok network.now s) network.now.sites }
{
    let ports = ports_of(network, s);
    let row = s * network.sites;
    (0..network.sites).all(|t| route_ok(ports, s, t, network.routes[row + t]))
}

fn routes_ok(network: &Network) -> bool
    requires { network.now.sites ≤ sites_most }
    ensures { result ≡ routes_ok network.now }
{
    (0..network.sites).all(|s| row_ok(network, s))
}

// 3 for S, T or D outside its limits, 6 for the channels, 7 for the routes, else none.
fn parts_refusal(network: &Network) -> Result<(), Refusal>
    ensures { refusal_of result ≡ parts_refusal network.now }
{
    if !sizes_ok(network.version, network.sites, network.tries, network.depth) {
        return Err(Refusal::Sizes);
    }
    if !channels_ok(network) {
        return Err(Refusal::Channels);
    }
    if !routes_ok(network) {
        return Err(Refusal::Routes);
    }
    Ok(())
}

// 2 for the version, 17 for the edition, then 3, 6 and 7; none of a valid network.
pub fn network_refusal(network: Network) -> Result<(), Refusal>
    ensures { refusal_of result ≡ network_refusal network }
{
    kind_refusal(network.version, network.edition)?;
    parts_refusal(&network)
}
