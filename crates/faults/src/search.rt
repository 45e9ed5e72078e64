// The first channel, route or send at fault of bytes whose head passed: each is tested in turn, up to the first that fails.
ghost use Rattle.std.specs.Prelude.{◌≡◌, ◌+◌, ◌*◌, ◌≤◌, ◌<◌, length};
ghost use Rattle.base.specs.Sizes.{port_count};
ghost use Rattle.model.specs.Network.{channel_ok, route_ok};
ghost use Rattle.model.specs.Runs.{send_ok};
ghost use Rattle.faults.specs.Head.{Read};
ghost use Rattle.format.specs.First.{Found};
ghost use Rattle.format.specs.Format.{set_in, set_width, count_of, network_of, run_of};
ghost use Rattle.format.specs.Faults.{numbered_ok};

use crate::head::{quad_at, word_at};
use crate::places::{fields_place, routes_place, send_place};

pub(crate) fn first_channel(b: &[u8], version: u8, sites: usize) -> Option<usize>
    requires { Read b.now version sites }
    ensures { Found (channel_ok (network_of b.now)) (port_count * sites) result }
{
    (0..base::PORTS * sites).find(|&m| !crate::tests::channel_ok(b, version, sites, m))
}

// Among the routes from site s.
fn first_in_row(b: &[u8], version: u8, sites: usize, s: usize) -> Option<usize>
    requires { Read b.now version sites × (s < sites) }
    ensures { Found (route_ok (network_of b.now) s) sites result }
{
    let ports = crate::tests::ports_at(b, version, sites, s);
    let row = routes_place(version, sites as u8) + 2 * (s * sites);
    for t in 0..sites {
        let route = word_at(b, row + 2 * t);
        if !checks::route_ok(ports, s, t, route) {
            return Some(t);
        }
    }
    None
}

// Route s x S + t is that from site s to site t.
pub(crate) fn first_route(b: &[u8], version: u8, sites: usize) -> Option<usize>
    requires { Read b.now version sites }
    ensures { Found (numbered_ok (network_of b.now)) (sites * sites) result }
{
    for s in 0..sites {
        if let Some(t) = first_in_row(b, version, sites, s) {
            return Some(s * sites + t);
        }
    }
    None
}

// The set from place p on.
fn set_at(b: &[u8], version: u8, p: usize) -> u64
    requires { p + set_width version ≤ length b.now }
    ensures { result ≡ set_in version b.now p }
{
    if version == 1 {
        return u64::from(word_at(b, p));
    }
    base::oct(quad_at(b, p), quad_at(b, p + 4))
}

pub(crate) fn first_send(b: &[u8], version: u8, sites: usize, sends: usize) -> Option<usize>
    requires { Read b.now version sites × (sends ≡ count_of b.now) × (sends < 256) }
    ensures { Found (send_ok (run_of b.now)) sends result }
{
    let draws = word_at(b, fields_place(version) + 7);
    let mut last: u16 = 0;
    for k in 0..sends {
        let at = send_place(version, sites as u8, k as u8);
        let draw = word_at(b, at);
        let set = set_at(b, version, at + 3);
        let site = b[at + 2];
        if !checks::stored_ok(draw, site, set, sites, draws, last) {
            return Some(k);
        }
        last = draw;
    }
    None
}
