// What the searches ask of a channel, and of the channels of a site, where they stand in bytes whose head passed.
ghost use Rattle.std.specs.Prelude.{◌≡◌, ◌+◌, ◌*◌, ◌≤◌, ◌<◌, length};
ghost use Rattle.base.specs.Sizes.{port_count, sites_most};
ghost use Rattle.base.specs.All.{all};
ghost use Rattle.model.specs.Network.{channel_ok};
ghost use Rattle.checks.specs.Network.{ports_of};
ghost use Rattle.faults.specs.Head.{Read};
ghost use Rattle.faults.specs.Channels.{byte_differs, pair_differs, is_first};
ghost use Rattle.format.specs.Format.{channel_in, channel_place, network_of};

use crate::places::{channel_of, channel_place};

// Channel m. Behind the last one there are routes, so that a second byte is there in version 1 too.
fn channel_at(b: &[u8], version: u8, m: usize) -> u16
    requires { (m < port_count * sites_most) × (channel_place version m + 2 ≤ length b.now) }
    ensures { result ≡ channel_in version b.now (channel_place version m) }
{
    let p = channel_place(version, m as u8);
    channel_of(version, b[p], b[p + 1])
}

// Version 1: no byte before channel m's is this one. All of them are looked at, some at a time (`all` leaves at the first, and
// looks at them one by one). Version 2 has a function of its own: its channels are two bytes each.
fn byte_is_first(b: &[u8], m: usize, byte: u8) -> bool
    requires { channel_place 1 m ≤ length b.now }
    ensures { result ≡ all (byte_differs b.now byte) m }
{
    let mut is_new = true;
    for i in 0..m {
        is_new = is_new & (b[13 + i] != byte);
    }
    is_new
}

// Version 2: no two bytes before channel m's are these.
fn pair_is_first(b: &[u8], m: usize, high: u8, low: u8) -> bool
    requires { channel_place 2 m ≤ length b.now }
    ensures { result ≡ all (pair_differs b.now high low) m }
{
    let mut is_new = true;
    for i in 0..m {
        is_new = is_new & ((b[14 + 2 * i] != high) | (b[15 + 2 * i] != low));
    }
    is_new
}

// No channel before channel m is the same: the bytes of none are.
fn is_first(b: &[u8], version: u8, m: usize) -> bool
    requires { (m < port_count * sites_most) × (channel_place version m + 2 ≤ length b.now) }
    ensures { result ≡ is_first version b.now m }
{
    if version == 1 {
        return byte_is_first(b, m, b[13 + m]);
    }
    pair_is_first(b, m, b[14 + 2 * m], b[15 + 2 * m])
}

// Channel m: none, or an input of the network that no channel before feeds.
pub(crate) fn channel_ok(b: &[u8], version: u8, sites: usize, m: usize) -> bool
    requires { Read b.now version sites × (m < port_count * sites) }
    ensures { result ≡ channel_ok (network_of b.now) m }
{
    let channel = channel_at(b, version, m);
    let is_new = is_first(b, version, m);
    (channel == base::NO_CHANNEL) | (checks::is_input(channel, sites) & is_new)
}

// The hex digits that may stand in a list of site s: 0, and the ports with a channel. (A line for each port, as
// `checks::ports_by` takes them.)
pub(crate) fn ports_at(b: &[u8], version: u8, sites: usize, s: usize) -> [bool; 16]
    requires { Read b.now version sites × (s < sites) }
    ensures { result ≡ ports_of (network_of b.now) s }
{
    let at = base::PORTS * s;
    let first = channel_at(b, version, at) != base::NO_CHANNEL;
    let second = channel_at(b, version, at + 1) != base::NO_CHANNEL;
    let third = channel_at(b, version, at + 2) != base::NO_CHANNEL;
    let last = channel_at(b, version, at + 3) != base::NO_CHANNEL;
    checks::ports_by(first, second, third, last)
}
