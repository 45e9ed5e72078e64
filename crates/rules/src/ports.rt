// The router's search: the ports of a route, the first that can serve, and an output for each of several targets.
ghost use Rattle.std.specs.Prelude.{◌≡◌, ◌<◌, ◌≤◌, IfSome, IsTrue};
ghost use Rattle.base.specs.Sizes.{port_count};
ghost use Rattle.model.specs.Network.{choices, list_of};
ghost use Rattle.model.specs.Router.{serves, first_port, gather};
ghost use Rattle.rules.specs.Router.{of_gathered, of_port, searched};

use crate::search::Search;
use types::Output;

// The ports of a route, first choice first; zeros after the last.
fn ports(route: u16) -> [usize; base::PORTS]
    ensures { result ≡ choices route }
{
    [
        usize::from(route / 4096),
        usize::from(route / 256 % 16),
        usize::from(route / 16 % 16),
        usize::from(route % 16),
    ]
}

// Whether port p can take a target: one of 1 to 4, empty or already chosen for this packet.
fn can_serve(outputs: &[Output; base::OUTPUTS], sets: &[u64; base::OUTPUTS], p: usize) -> bool
    ensures serves { result ≡ serves outputs.now sets.now p }
    ensures within { IsTrue result → p ≤ port_count }
{
    (1..=base::PORTS).contains(&p) && (!outputs[p].used || sets[p] != 0)
}

// The first port of a list that can serve.
pub(crate) fn first_serving(
    outputs: &[Output; base::OUTPUTS],
    sets: &[u64; base::OUTPUTS],
    list: [usize; base::PORTS],
) -> Option<usize>
    ensures first { result ≡ of_port (first_port (serves outputs.now sets.now) list) }
    ensures within { IfSome result (λ p. p ≤ port_count) }
{
    list.iter().copied().find(|p| can_serve(outputs, sets, *p))
}

// The ports of the route to t.
pub(crate) fn list_of(search: Search, t: usize) -> [usize; base::PORTS]
    requires { t < search.sites }
    ensures { result ≡ list_of (searched search.entry) search.entry.site t }
{
    ports(search.routes[search.site * search.sites + t])
}

// A search over targets and their ports, left by a label: a form that the specification names.
// For each target in `others`, ascending, the first output in its list that is empty or already chosen.
pub(crate) fn gather_outputs(
    search: Search,
    outputs: [Output; base::OUTPUTS],
    others: u64,
) -> Option<[u64; base::OUTPUTS]>
    ensures { result ≡ of_gathered (gather (searched search.entry) search.entry.site outputs others) }
{
    let mut sets = [0u64; base::OUTPUTS];
    'targets: for t in 0..search.sites {
        if sets::member(others, t) {
            for p in list_of(search, t) {
                if can_serve(&outputs, &sets, p) {
                    sets[p] = sets::with(sets[p], t);
                    continue 'targets;
                }
            }
            return None;
        }
    }
    Some(sets)
}
