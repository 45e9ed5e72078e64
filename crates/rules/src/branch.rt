// The router's branch (L10, edition 3): "a packet splits only into its local target and one way onward".
ghost use Rattle.std.specs.Prelude.{◌≡◌, ◌<◌, Some};
ghost use Rattle.base.specs.Sizes.{set_bits, output_count};
ghost use Rattle.model.specs.Router as spec;
ghost use Rattle.rules.specs.Router.{of_choice};

use crate::router::{Choice, one_output};
use types::{Connection, Output};

// The own site goes to the split output and the rest of the set to port p.
fn parted(s: usize, set: u64, p: usize) -> Choice
    requires { (s < set_bits) × (0 < p) × (p < output_count) }
    ensures { Some result ≡ of_choice (spec.parted s set p) }
{
    let mut sets = [0u64; base::OUTPUTS];
    sets[p] = sets::without(set, s);
    sets[base::SPLIT_PORT] = sets::only(s);
    Choice {
        sets,
        connection: Connection::Branch,
    }
}

// Edition 3, two or more targets, p the way to the others: parted if s is among them and the split output is empty, else
// the whole set that way.
#[tactic(auto, unfolding(model::specs::Router::branch))]
pub(crate) fn branch_on(s: usize, outputs: [Output; base::OUTPUTS], set: u64, p: usize) -> Choice
    requires { (s < set_bits) × (0 < p) × (p < output_count) }
    ensures { Some result ≡ of_choice (spec.branch s outputs set p) }
{
    if sets::member(set, s) & !outputs[base::SPLIT_PORT].used {
        return parted(s, set, p);
    }
    one_output(Connection::Passthru, set, p)
}
