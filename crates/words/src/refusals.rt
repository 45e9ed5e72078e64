// The refusals that RUN and SEND on lent words share: 2, 17, 3, 6, 7 of the network; 13 for words that are no state's, or of a state
// that is not in range.
ghost use Rattle.std.specs.Prelude.{◌≡◌};
ghost use Rattle.base.specs.Refusals.{number, refusal_of};
ghost use Rattle.model.specs.Range.{in_range};
ghost use Rattle.layout.specs.Words.{state_of};
ghost use Rattle.layout.specs.Public.{form_refusal, shared_refusal};

use crate::form::is_canonical;
use crate::load::{load_counter, load_site};
use base::Refusal;
use layout::WORDS;
use types::Network;

// Whether the words' state is in range for this network.
fn is_in_range(network: &Network, words: &[u64; WORDS]) -> bool
    ensures { result ≡ in_range network.now (state_of words.now) }
{
    let counter = load_counter(words);
    (0..base::SITES).all(|s| {
        checks::place_ok(
            network.edition,
            network.sites,
            network.tries,
            network.depth,
            counter,
            s,
            load_site(words, s),
        )
    })
}

// What is told of words that are no state's: the network's refusal, else 13.
pub(crate) fn form_refusal(network: &Network) -> Refusal
    ensures { number result ≡ form_refusal network.now }
{
    match checks::network_refusal(*network) {
        Err(refusal) => refusal,
        Ok(()) => Refusal::State,
    }
}

pub(crate) fn shared_refusal(network: &Network, words: &[u64; WORDS]) -> Result<(), Refusal>
    ensures { refusal_of result ≡ shared_refusal network.now words.now }
{
    checks::network_refusal(*network)?;
    if is_canonical(words) && is_in_range(network, words) {
        Ok(())
    } else {
        Err(Refusal::State)
    }
}
