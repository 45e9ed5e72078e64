// The router of a site (document 01, "Router"): which outputs serve a packet, and with which sets.
ghost use Rattle.std.specs.Prelude.{◌≡◌, cond, ◌≤◌, ◌<◌, ◌^◌, true, false, Some, IfSome, MatchOption};
ghost use Rattle.base.specs.Sizes.{output_count, port_count};
ghost use Rattle.sets.specs.Sets.{minus, lowest};
ghost use Rattle.model.specs.Network.{list_of};
ghost use Rattle.model.specs.Router.{chosen_count, first_chosen, first_empty, one_output, to_own, Every, Unserved, spread};
ghost use Rattle.model.specs.Router.{to_other, route};
ghost use Rattle.rules.specs.Router.{of_choice, of_port, searched, routes_only, spread_targets, spread_or_pass};
ghost use Rattle.rules.specs.Router.{branch_or_pass, several, proper, askable, asked_by};

use crate::branch::branch_on;
use crate::ports::{first_serving, gather_outputs, list_of};
use crate::search::Search;
use types::{Connection, Network, Output};

// What the router chooses: the connection, and the set that each output gets; 0 for an output not chosen.
#[derive(Clone, Copy)]
pub struct Choice {
    pub sets: [u64; base::OUTPUTS],
    pub connection: Connection,
}

// How many outputs a choice has.
fn count_chosen(sets: [u64; base::OUTPUTS]) -> usize
    ensures { result ≡ chosen_count sets }
{
    sets.iter().filter(|set| **set != 0).count()
}

// The first of the ports 1 to 4 that a choice has; 0 where it has none, as the definition says.
fn first_chosen(sets: [u64; base::OUTPUTS]) -> usize
    ensures { result ≡ first_chosen sets }
{
    (1..base::SPLIT_PORT).find(|p| sets[*p] != 0).unwrap_or(0)
}

// The whole set goes to output p.
pub(crate) fn one_output(connection: Connection, set: u64, p: usize) -> Choice
    requires { p < output_count }
    ensures { Some result ≡ of_choice (one_output connection set p) }
{
    let mut sets = [0u64; base::OUTPUTS];
    sets[p] = set;
    Choice { sets, connection }
}

// The whole set goes to output 0, if that is empty.
fn to_own(outputs: [Output; base::OUTPUTS], set: u64) -> Option<Choice>
    ensures { result ≡ of_choice (to_own outputs set) }
{
    if outputs[0].used {
        return None;
    }
    Some(one_output(Connection::Unicast, set, 0))
}

// The first empty output in the list of the lowest target.
fn way_to(search: Search, outputs: [Output; base::OUTPUTS], targets: u64) -> Option<usize>
    requires { lowest targets < search.sites }
    ensures way { result ≡ of_port (first_empty outputs (list_of (searched search.entry) search.entry.site (lowest targets))) }
    ensures within { IfSome result (λ p. p ≤ port_count) }
{
    let list = list_of(search, sets::lowest(targets));
    first_serving(&outputs, &[0u64; base::OUTPUTS], list)
}

// The whole set goes that way.
fn to_other(
    search: Search,
    outputs: [Output; base::OUTPUTS],
    connection: Connection,
    set: u64,
    targets: u64,
) -> Option<Choice>
    requires { lowest targets < search.sites }
    ensures { result ≡ of_choice (to_other (searched search.entry) search.entry.site outputs connection set (lowest targets)) }
{
    let p = way_to(search, outputs, targets)?;
    Some(one_output(connection, set, p))
}

// Every target got an output: passthru on a single remote one, or a split with the whole set at output 0.
#[tactic(auto, using(crate::proofs::Found::first_chosen_below), unfolding(model::specs::Router::spread))]
fn spread_over(sets: [u64; base::OUTPUTS], s: usize, set: u64) -> Choice
    ensures { Some result ≡ of_choice (spread s set (Every sets)) }
{
    let mut all = sets;
    all[0] = set;
    if sets::member(set, s) {
        return Choice {
            sets: all,
            connection: Connection::SomeLocal,
        };
    }
    if count_chosen(sets) == 1 {
        return one_output(Connection::Passthru, set, first_chosen(sets));
    }
    Choice {
        sets: all,
        connection: Connection::AllRemote,
    }
}

// The set spread over the outputs, if output 0 is empty and every target in others gets one.
#[tactic(auto, using(crate::proofs::Gather::missing), unfolding(model::specs::Router::spread))]
fn spread_targets(
    search: Search,
    outputs: [Output; base::OUTPUTS],
    set: u64,
    others: u64,
) -> Option<Choice>
    ensures { result ≡ of_choice (spread_targets (searched search.entry) search.entry.site outputs set others) }
{
    if outputs[0].used {
        return None;
    }
    let sets = gather_outputs(search, outputs, others)?;
    Some(spread_over(sets, search.site, set))
}

// Two or more targets, in editions 1 and 2: spread over the outputs, else passthru.
#[tactic(auto, unfolding(model::specs::Router::or_else))]
fn spread_or_pass(search: Search, outputs: [Output; base::OUTPUTS], set: u64) -> Option<Choice>
    requires { lowest (minus search.site set) < search.sites }
    ensures { result ≡ of_choice (spread_or_pass (searched search.entry) search.entry.site outputs set) }
{
    let others = sets::without(set, search.site);
    match spread_targets(search, outputs, set, others) {
        Some(choice) => Some(choice),
        None => to_other(search, outputs, Connection::Passthru, set, others),
    }
}

// Two or more targets, in edition 3: parted, or the whole set the way to the lowest of the others.
#[tactic(auto, using(crate::proofs::Found::no_branch))]
fn branch_or_pass(search: Search, outputs: [Output; base::OUTPUTS], set: u64) -> Option<Choice>
    requires { lowest (minus search.site set) < search.sites }
    ensures { result ≡ of_choice (branch_or_pass (searched search.entry) search.entry.site outputs set) }
{
    let p = way_to(search, outputs, sets::without(set, search.site))?;
    Some(branch_on(search.site, outputs, set, p))
}

// Two or more targets, by the edition.
fn choose_several(search: Search, outputs: [Output; base::OUTPUTS], set: u64) -> Option<Choice>
    requires { lowest (minus search.site set) < search.sites }
    ensures { result ≡ of_choice (several (searched search.entry) search.entry.site outputs set) }
{
    if draws::is_restricted(search.edition) {
        return branch_or_pass(search, outputs, set);
    }
    spread_or_pass(search, outputs, set)
}

// The router's rules but the last, for a packet with this set.
pub(crate) fn choose(search: Search, outputs: [Output; base::OUTPUTS], set: u64) -> Option<Choice>
    requires { (0 < set) × (set < 2 ^ search.sites) }
    ensures { result ≡ of_choice (route (searched search.entry) search.entry.site outputs set) }
{
    if set == sets::only(search.site) {
        return to_own(outputs, set);
    }
    if sets::is_single(set) {
        return to_other(search, outputs, Connection::Unicast, set, set);
    }
    choose_several(search, outputs, set)
}

// The search at site s over any routes and sites for a set; none where it can not be made.
pub(crate) fn search_in(
    edition: u8,
    routes: &[u16],
    sites: usize,
    s: usize,
    set: u64,
) -> Option<Search<'_>>
    ensures { MatchOption result (askable routes.now sites s set ≡ false)
        (λ q. (askable routes.now sites s set ≡ true) × (searched q ≡ routes_only edition sites routes.now) × (q.site ≡ s)) }
{
    let whole = routes.len() == base::SITES * base::SITES;
    if (s < sites) & (sites <= base::SITES) & whole & sets::is_targets(set, sites) {
        return Some(Search {
            edition,
            routes,
            sites,
            site: s,
        });
    }
    None
}

// The same over any routes, sites and sets: nothing serves where site s is none of the sites, there are more than the
// limit, the routes are not those of the limit's sites, or the set is not one of targets. (Of the parts of a network, as
// `route_in_settled` is.)
pub fn route_in(
    edition: u8,
    routes: &[u16],
    sites: usize,
    s: usize,
    outputs: [Output; base::OUTPUTS],
    set: u64,
) -> Option<Choice>
    ensures { result ≡ of_choice (asked_by edition routes.now sites s outputs set) }
{
    let search = search_in(edition, routes, sites, s, set)?;
    choose(search, outputs, set)
}

// The same over a network.
pub fn route_packet(
    network: Network,
    s: usize,
    outputs: [Output; base::OUTPUTS],
    set: u64,
) -> Option<Choice>
    ensures { result ≡ of_choice (cond (proper network.sites s set) (route network s outputs set) Unserved) }
{
    route_in(
        network.edition,
        &network.routes,
        network.sites,
        s,
        outputs,
        set,
    )
}
