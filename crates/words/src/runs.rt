// RUN in place: by ranges of the code number.
ghost use Rattle.model.specs.Steps.{act, ends};
ghost use Rattle.layout.specs.Words.{sites_of};
ghost use Rattle.words.specs.Events.{Did, RunAsks, site_in};

use crate::arms::{
    channel_in_place, local_in_place, operator_in_place, queue_in_place, timeout_in_place,
};
use crate::inputs::input_in_place;
use layout::WORDS;
use types::{Network, Ran};

// RUN (s, code) on the words of a state in range of a valid network. The whole division of 5, 11, 13 and 14 by the codes of
// editions 1 and 2 is the number of the in-queue that the arm serves.
pub(crate) fn run_in_place(
    network: &Network,
    words: &mut [u64; WORDS],
    s: usize,
    code: usize,
) -> Ran
    requires { RunAsks network.now words.old s }
    ensures { Did network.now words.old words.new s result
        (act network.now s (site_in words.old s) (ends network.now (sites_of words.old) s) code) }
{
    match code {
        0..=4 => input_in_place(network, words, s, code),
        5 | 13 => local_in_place(network.depth, words, s, code / base::CODES),
        6..=9 => {
            let channel = network.channels[base::PORTS * s + (code - 6)];
            channel_in_place(network.edition, words, s, code - 6, channel)
        }
        10 => queue_in_place(words, s),
        11 | 14 => operator_in_place(network.depth, words, s, code / base::CODES),
        12 => timeout_in_place(network.edition, words, s),
        _ => Ran::Nothing,
    }
}
