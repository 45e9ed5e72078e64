// Codes 0 to 4 in place: which outputs are ready, read from the packed words; a net-input in seek, and in its other states.
ghost use Rattle.std.specs.Prelude.{◌≡◌, true, ◌&&◌, ◌<◌, ◌*◌, length};
ghost use Rattle.base.specs.Sizes.{sites_most, input_count, port_count};
ghost use Rattle.types.specs.Numbers.{state_number};
ghost use Rattle.types.specs.Phases.{listening};
ghost use Rattle.model.specs.Types.{in_at, mark};
ghost use Rattle.model.specs.Network.{is_channel};
ghost use Rattle.rules.specs.Turns.{of_input_turn, other_turn};
ghost use Rattle.layout.specs.Layout.{end_count};
ghost use Rattle.layout.specs.Words.{sites_of};
ghost use Rattle.layout.specs.Idle.{stands, waits};
ghost use Rattle.words.specs.Events as spec;
ghost use Rattle.words.specs.Events.{RunAsks, site_in, end_of};
ghost use Rattle.words.specs.Marked.{masked, seen};

use crate::load::{is_taken, load_input, phase_of, state_of};
use crate::marked::{load_marked, load_seen, opening, touched};
use crate::puts::put_input;
use layout::WORDS;
use rules::{InputTurn, all_ready, is_listening, other_input, route_in, seek_turn};
use types::{Input, Network, Phase, Ran};

// Whether the input at the end of a channel is open or abort; not where there is no channel.
fn is_heard(words: &[u64; WORDS], channel: u16) -> bool
    requires { is_channel channel ≡ true → channel < end_count }
    ensures { result ≡ (is_channel channel && listening (end_of (sites_of words.now) channel).phase) }
{
    if channel == base::NO_CHANNEL {
        return false;
    }
    let b = base::wider(channel);
    is_listening(phase_of(words, b / base::PORTS, b % base::PORTS + 1))
}

// Whether output j + 1 is marked and ready; a branch by the mark would cost more than the look at it.
fn is_ready(network: &Network, words: &[u64; WORDS], s: usize, j: usize, marked: bool) -> bool
    requires { (s < sites_most) × (j < port_count) × spec.ChannelsWithin network.now.channels s }
    ensures { result ≡ (marked && spec.ready_at network.now.channels (sites_of words.now) s j) }
{
    let channel = network.channels[base::PORTS * s + j];
    let taken = is_taken(words, s, j + 1);
    let heard = is_heard(words, channel);
    marked & (taken & heard)
}

// Whether the split output is marked and ready.
fn is_split_ready(words: &[u64; WORDS], s: usize, marked: bool) -> bool
    requires { s < sites_most }
    ensures { result ≡ (marked && spec.split_ready (sites_of words.now) s) }
{
    marked && is_taken(words, s, base::SPLIT_PORT)
}

// Which outputs of site s are ready: output 0, and those that are marked. (A row for each output: the first and the last ask
// another test than those between them.)
fn readies(
    network: &Network,
    words: &[u64; WORDS],
    s: usize,
    marks: [bool; base::OUTPUTS],
) -> [bool; base::OUTPUTS]
    requires { (s < sites_most) × spec.ChannelsWithin network.now.channels s }
    ensures { result ≡ spec.ready_flags network.now.channels (sites_of words.now) s marks }
{
    [
        is_taken(words, s, 0),
        is_ready(network, words, s, 0, marks[1]),
        is_ready(network, words, s, 1, marks[2]),
        is_ready(network, words, s, 2, marks[3]),
        is_ready(network, words, s, 3, marks[4]),
        is_split_ready(words, s, marks[5]),
    ]
}

// Whether a net-input stays in this state, all its connected outputs being ready or not, output 0 being ready or not.
fn is_standing(phase: Phase, every: bool, own: bool) -> bool
    ensures { result ≡ stands phase every own }
{
    match phase {
        Phase::Free | Phase::Abort(_) => true,
        Phase::Seek | Phase::Done(_, _) => false,
        Phase::Open(_) => every,
        Phase::Wait(_) | Phase::Last(_, _) => !every,
        Phase::FinAbort(_, _) => !own,
    }
}

// Whether no rule moves this net-input.
fn has_to_wait(input: Input, ready: [bool; base::OUTPUTS]) -> bool
    ensures { result ≡ waits input (mark ready) }
{
    is_standing(input.phase, all_ready(ready, input.outputs), ready[0])
}

// What becomes of a net-input in another state than seek, and of the marked outputs.
fn other_turn(
    words: &[u64; WORDS],
    s: usize,
    marks: [bool; base::OUTPUTS],
    input: Input,
    ready: [bool; base::OUTPUTS],
) -> Option<InputTurn>
    requires { s < sites_most }
    ensures { result ≡ of_input_turn (other_turn input (masked marks (site_in words.now s).outputs) (mark ready)) }
{
    let outputs = load_marked(words, s, marks);
    other_input(input, outputs, ready)
}

// Net-input i, this one, in another state than seek; which outputs are ready is known.
fn ready_in_place(
    words: &mut [u64; WORDS],
    s: usize,
    i: usize,
    input: Input,
    ready: [bool; base::OUTPUTS],
) -> Ran
    requires { (s < sites_most) × (i < input_count) × (input ≡ in_at (site_in words.old s) i) ×
        (state_number (in_at (site_in words.old s) i).phase ≡ 1 → ⊥) }
    ensures { spec.DidReady words.old words.new s result i (mark ready) }
{
    if has_to_wait(input, ready) {
        return Ran::Nothing;
    }
    let marks = touched(input.phase, input.outputs);
    let turn = other_turn(words, s, marks, input, ready);
    put_input(words, s, i, marks, turn)
}

// Net-input i in another state than seek.
fn other_in_place(network: &Network, words: &mut [u64; WORDS], s: usize, i: usize) -> Ran
    requires { (s < sites_most) × (i < input_count) × spec.ChannelsWithin network.now.channels s ×
        (state_number (in_at (site_in words.old s) i).phase ≡ 1 → ⊥) }
    ensures { spec.DidInput network.now words.old words.new s result i }
{
    let input = load_input(words, s, i);
    let ready = readies(network, words, s, input.outputs);
    ready_in_place(words, s, i, input, ready)
}

// What the router's answer makes of net-input i in seek, from the outputs as the router sees them.
fn seeking(network: &Network, words: &[u64; WORDS], s: usize, i: usize) -> Option<InputTurn>
    requires { (s < sites_most) × (i < input_count) }
    ensures turn { result ≡ of_input_turn (spec.sought network.now (in_at (site_in words.now s) i)
        (seen network.now.edition (site_in words.now s).outputs) s i) }
    ensures routes { length network.now.routes ≡ sites_most * sites_most }
{
    let input = load_input(words, s, i);
    let outputs = load_seen(network.edition, words, s);
    let choice = route_in(
        network.edition,
        &network.routes,
        network.sites,
        s,
        outputs,
        input.set,
    );
    seek_turn(network.tries, i as u8, input, outputs, choice)
}

// Net-input i in seek.
fn seek_in_place(network: &Network, words: &mut [u64; WORDS], s: usize, i: usize) -> Ran
    requires place { i < input_count }
    requires asks { RunAsks network.now words.old s }
    requires seeks { state_number (in_at (site_in words.old s) i).phase ≡ 1 }
    ensures { spec.DidInput network.now words.old words.new s result i }
{
    let turn = seeking(network, words, s, i);
    let marks = opening(turn);
    put_input(words, s, i, marks, turn)
}

// Codes 0 to 4: net-input i, by its state number in a local: a form that the specification names (docs/DECISIONS.md, "The forms").
pub(crate) fn input_in_place(network: &Network, words: &mut [u64; WORDS], s: usize, i: usize) -> Ran
    requires place { i < input_count }
    requires asks { RunAsks network.now words.old s }
    ensures { spec.DidInput network.now words.old words.new s result i }
{
    let number = state_of(words, s, i);
    match number {
        0 | 6 => Ran::Nothing,
        1 => seek_in_place(network, words, s, i),
        _ => other_in_place(network, words, s, i),
    }
}
