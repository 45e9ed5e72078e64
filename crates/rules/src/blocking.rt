// The outputs that stand in the way of a packet for which the router finds nothing (document 02, L7), and what a
// net-input's step passes on of them. The player asks router.rt alone.
ghost use Rattle.std.specs.Prelude.{◌≡◌, cond, ◌&&◌, ◌<◌, ◌^◌};
ghost use Rattle.base.specs.Sizes.{output_count};
ghost use Rattle.sets.specs.Sets.{those};
ghost use Rattle.model.specs.Router.{is_port, listed, ways};
ghost use Rattle.model.specs.NetInput.{passes_on};
ghost use Rattle.rules.specs.Router.{of_answered, answered_by, passed_of, passed_by, searched, proper};

use crate::ports::list_of;
use crate::router::{Choice, choose, search_in};
use crate::search::Search;
use types::{Input, Network, Output, Phase};

// Whether output j is one of the ports of a list.
fn is_way(list: [usize; base::PORTS], j: usize) -> bool
    ensures { result ≡ (is_port j && listed list j) }
{
    (1..=base::PORTS).contains(&j) && list.contains(&j)
}

// The ports of a list, as a set of outputs. (A `for`: a fold would hand the set on and say no more.)
fn ports_of(list: [usize; base::PORTS]) -> u64
    ensures { result ≡ those (λ j. is_port j && listed list j) output_count }
{
    let mut set = 0u64;
    for j in 0..base::OUTPUTS {
        if is_way(list, j) {
            set = sets::with(set, j);
        }
    }
    set
}

// Output 0 for {s}, else the ports in the list of the lowest target other than s.
fn ways_of(search: Search, set: u64) -> u64
    requires { (0 < set) × (set < 2 ^ search.sites) }
    ensures { result ≡ those (ways (searched search.entry) search.entry.site set) output_count }
{
    if set == sets::only(search.site) {
        return 1;
    }
    let others = sets::without(set, search.site);
    ports_of(list_of(search, sets::lowest(others)))
}

// The router asked over any routes, sites and sets: its choice, or the outputs in the way. Nothing serves, and nothing is in
// the way, where site s is none of the sites, there are more than the limit, the routes are not those of the limit's
// sites, or the set is not one of targets. (The network's parts stay apart: `ask_in_settled` is of them.)
pub fn ask_in(
    edition: u8,
    routes: &[u16],
    sites: usize,
    s: usize,
    outputs: [Output; base::OUTPUTS],
    set: u64,
) -> Result<Choice, u64>
    ensures { result ≡ of_answered (answered_by edition routes.now sites s outputs set) }
{
    let Some(search) = search_in(edition, routes, sites, s, set) else {
        return Err(0);
    };
    match choose(search, outputs, set) {
        Some(choice) => Ok(choice),
        None => Err(ways_of(search, set)),
    }
}

// What a net-input in seek passes on of the router's answer: the outputs in the way where nothing serves and the packet is
// not handed.
fn passed_on(
    tries: u8,
    input: Input,
    outputs: [Output; base::OUTPUTS],
    answer: Result<Choice, u64>,
) -> u64
    ensures { result ≡ passed_of tries input outputs answer }
{
    match answer {
        Ok(_) => 0,
        Err(blocking) => if (input.tries < tries) | outputs[0].used {
            blocking
        } else {
            0
        },
    }
}

// What the step of a net-input passes on, over any routes; nothing where it is not in seek. (Of the
// parts of a network, as `blocking_in_settled` is.)
pub fn blocking_in(
    edition: u8,
    routes: &[u16],
    sites: usize,
    tries: u8,
    s: usize,
    input: Input,
    outputs: [Output; base::OUTPUTS],
) -> u64
    ensures { result ≡ passed_by edition routes.now sites tries s input outputs }
{
    match input.phase {
        Phase::Seek => {
            let answer = ask_in(edition, routes, sites, s, outputs, input.set);
            passed_on(tries, input, outputs, answer)
        }
        _ => 0,
    }
}

// The same over a network.
pub fn input_blocking(
    network: Network,
    s: usize,
    input: Input,
    outputs: [Output; base::OUTPUTS],
) -> u64
    ensures { result ≡ cond (proper network.sites s input.set) (passes_on network s input outputs) 0 }
{
    blocking_in(
        network.edition,
        &network.routes,
        network.sites,
        network.tries,
        s,
        input,
        outputs,
    )
}
