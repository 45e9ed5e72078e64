// Which sites are far apart: different sites with no channel between them in either direction. Takes any network and
// any numbers.
ghost use Rattle.std.specs.Prelude.{◌≡◌, ◌+◌, ◌*◌, ◌<◌, get_or};
ghost use Rattle.base.specs.Sizes.{port_count};
ghost use Rattle.model.specs.Apart as spec;
ghost use Rattle.checks.specs.Apart.{ends_at};

use types::Network;

// Whether a channel, or none, ends at site u.
fn ends_at(channel: u16, u: usize) -> bool
    ensures { result ≡ ends_at channel u }
{
    let end = base::wider(channel) / base::PORTS;
    (channel != base::NO_CHANNEL) & (end == u)
}

// Whether port j + 1 of site s leads to site u. A channel that the array has no room for reads as 0.
fn port_leads(channels: [u16; base::PORTS * base::SITES], s: usize, j: usize, u: usize) -> bool
    requires { j < port_count }
    ensures { result ≡ ends_at (get_or channels (port_count * s + j) 0) u }
{
    if s < base::SITES {
        let channel = channels[base::PORTS * s + j];
        return ends_at(channel, u);
    }
    ends_at(0, u)
}

// Whether a port of site s leads to site u; no port of a site that the network has not.
fn leads(network: Network, s: usize, u: usize) -> bool
    ensures { result ≡ spec.leads network s u }
{
    let sites = network.sites;
    let channels = network.channels;
    let first = port_leads(channels, s, 0, u);
    let second = port_leads(channels, s, 1, u);
    let third = port_leads(channels, s, 2, u);
    let last = port_leads(channels, s, 3, u);
    (s < sites) & (first | second | third | last)
}

// Whether the sites s and u are far apart.
pub fn far_apart(network: Network, s: usize, u: usize) -> bool
    ensures { result ≡ spec.far_apart network s u }
{
    let there = leads(network, s, u);
    let back = leads(network, u, s);
    (s != u) & !there & !back
}
