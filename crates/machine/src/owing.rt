// The owed pairs of a state, counted place by place (document 01, "Owing").
ghost use Rattle.std.specs.Prelude.{◌≡◌, ℕ, ◌*◌, ◌≤◌, length, take};
ghost use Rattle.base.specs.Sizes.{set_bits};
ghost use Rattle.base.specs.Sums.{sum};
ghost use Rattle.model.specs.Types.{Terminator, t_end};
ghost use Rattle.types.specs.Phases.{held};
ghost use Rattle.model.specs.Owing as spec;

use rules::held_terminator;
use types::{InEntry, InQueue, Input, OutEntry, OutQueue, Output, Site, State, Terminator};

// A place that can owe: the terminator that it holds, and its set.
trait Place {
    ghost holds: { Self → Terminator };

    ghost targets: { Self → ℕ };

    fn terminator(&self) -> Terminator
        ensures { result ≡ holds self.now };

    fn set(&self) -> u64
        ensures { result ≡ targets self.now };
}

impl Place for Input {
    ghost holds = { λ y. held y.phase };

    ghost targets = { λ y. y.set };

    fn terminator(&self) -> Terminator {
        held_terminator(self.phase)
    }

    fn set(&self) -> u64 {
        self.set
    }
}

impl Place for Output {
    ghost holds = { λ o. o.terminator };

    ghost targets = { λ o. o.set };

    fn terminator(&self) -> Terminator {
        self.terminator
    }

    fn set(&self) -> u64 {
        self.set
    }
}

// An entry of the out-queue owes its set.
impl Place for OutEntry {
    ghost holds = { λ _. t_end };

    ghost targets = { λ u. u.set };

    fn terminator(&self) -> Terminator {
        Terminator::End
    }

    fn set(&self) -> u64 {
        self.set
    }
}

impl Place for InEntry {
    ghost holds = { λ a. a.terminator };

    ghost targets = { λ a. a.set };

    fn terminator(&self) -> Terminator {
        self.terminator
    }

    fn set(&self) -> u64 {
        self.set
    }
}

// How many sites a place at site s owes: end owes its set, keep-local its own site if in the set.
fn place_pairs(terminator: Terminator, s: usize, set: u64) -> usize
    ensures { (result ≡ spec.pairs_as terminator s set) × (result ≤ set_bits) }
{
    match terminator {
        Terminator::None | Terminator::Abort => 0,
        Terminator::End => sets::size(set),
        Terminator::KeepLocal => usize::from(sets::member(set, s)),
    }
}

// Of several places of site s.
fn places_pairs<P: Place>(s: usize, places: &[P]) -> usize
    requires { length places.now ≤ set_bits }
    ensures { (result ≡ sum (λ p. spec.pairs_as (P.holds p) s (P.targets p)) places.now)
        × (result ≤ set_bits * length places.now) }
{
    let mut n = 0usize;
    for place in places {
        n += place_pairs(place.terminator(), s, place.set());
    }
    n
}

// Of the entries of an out-queue, of an in-queue. (Two lines over one generic `places_pairs`: one more generic function for
// them would only hand on.)
fn out_queue_pairs(s: usize, queue: OutQueue) -> usize
    ensures { (result ≡ sum (spec.pairs_out_entry s) (take queue.count queue.entries)) × (result ≤ 512) }
{
    places_pairs(s, &queue.entries[..queue.count.min(base::QUEUE)])
}

fn in_queue_pairs(s: usize, queue: InQueue) -> usize
    ensures { (result ≡ spec.pairs_in_queue s queue) × (result ≤ 512) }
{
    places_pairs(s, &queue.entries[..queue.count.min(base::QUEUE)])
}

// The owed pairs of site s. Of a queue whose count is above its room every entry counts.
pub fn site_pairs(s: usize, site: Site) -> usize
    ensures { (result ≡ spec.pairs_site s site) × (result ≤ 2240) }
{
    places_pairs(s, &site.inputs)
        + places_pairs(s, &site.outputs)
        + out_queue_pairs(s, site.outgoing)
        + in_queue_pairs(s, site.incoming[0])
        + in_queue_pairs(s, site.incoming[1])
}

// The owed pairs of all sites.
pub(crate) fn owed_pairs(state: State) -> usize
    ensures { result ≡ spec.owed_pairs state.sites }
{
    let mut n = 0usize;
    for (s, site) in state.sites.iter().enumerate() {
        n += site_pairs(s, *site);
    }
    n
}
