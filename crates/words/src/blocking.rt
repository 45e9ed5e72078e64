// The outputs in the way that RUN names where the router failed (document 02, L7), read from the words before it. The
// player does not ask for them.
ghost use Rattle.std.specs.Prelude.{◌≡◌};
ghost use Rattle.model.specs.Steps.{blocking_at};
ghost use Rattle.words.specs.Events.{RunAsks, site_in};

use crate::load::{load_input, load_outputs};
use layout::WORDS;
use rules::blocking_in;
use types::Network;

// Those that RUN (s, code) names, on the words of a state in range: a net-input's; no other code has any.
pub(crate) fn blocking_in_place(
    network: &Network,
    words: &[u64; WORDS],
    s: usize,
    code: usize,
) -> u64
    requires { RunAsks network.now words.now s }
    ensures { result ≡ blocking_at network.now s (site_in words.now s) code }
{
    if code < base::INPUTS {
        let input = load_input(words, s, code);
        let outputs = load_outputs(words, s);
        return blocking_in(
            network.edition,
            &network.routes,
            network.sites,
            network.tries,
            s,
            input,
            outputs,
        );
    }
    0
}
