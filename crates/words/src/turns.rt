// What a rule says of the places that it names, read from the words: loads, then the rule by value.
ghost use Rattle.std.specs.Prelude.{◌≡◌, true, suc, ◌<◌};
ghost use Rattle.base.specs.Sizes.{sites_most, port_count, in_queue_count};
ghost use Rattle.model.specs.Types.{in_at, out_at, queue_at, queue_port};
ghost use Rattle.model.specs.Places as places;
ghost use Rattle.model.specs.Steps.{far_end};
ghost use Rattle.rules.specs.Turns.{of_local_turn, of_channel_turn, of_queue_turn, of_work, of_input_turn};
ghost use Rattle.layout.specs.Layout.{end_count};
ghost use Rattle.layout.specs.Words.{sites_of};
ghost use Rattle.words.specs.Events.{site_in};
ghost use Rattle.words.specs.Marked.{masked};

use crate::load::{load_in_queue, load_input, load_out_queue, load_output};
use crate::marked::load_marked;
use layout::WORDS;
use rules::{
    ChannelTurn, InputTurn, LocalTurn, OperatorTurn, QueueTurn, channel_output, local_output,
    operator, out_queue, time_out,
};
use types::Input;

// The output that fills in-queue q.
pub(crate) fn local_turn(
    depth: usize,
    words: &[u64; WORDS],
    s: usize,
    q: usize,
) -> Option<LocalTurn>
    requires { (s < sites_most) × (q < in_queue_count) }
    ensures { result ≡ of_local_turn (places.local_output depth (out_at (site_in words.now s) (queue_port q))
        (queue_at (site_in words.now s) q)) }
{
    let output = load_output(words, s, base::SPLIT_PORT * q);
    let queue = load_in_queue(words, s, q);
    local_output(depth, output, queue)
}

// Output j + 1, and the input at the end of its channel, this one.
pub(crate) fn channel_turn(
    edition: u8,
    words: &[u64; WORDS],
    s: usize,
    j: usize,
    channel: u16,
) -> Option<ChannelTurn>
    requires { (s < sites_most) × (j < port_count) × (channel < end_count) }
    ensures { result ≡ of_channel_turn (places.channel_output edition true (out_at (site_in words.now s) (suc j))
        (far_end (sites_of words.now) channel)) }
{
    let b = base::wider(channel);
    let output = load_output(words, s, j + 1);
    let input = load_input(words, b / base::PORTS, b % base::PORTS + 1);
    channel_output(edition, true, output, input)
}

pub(crate) fn queue_turn(words: &[u64; WORDS], s: usize) -> Option<QueueTurn>
    requires { s < sites_most }
    ensures { result ≡ of_queue_turn (places.out_queue (site_in words.now s).outgoing (in_at (site_in words.now s) 0)) }
{
    let queue = load_out_queue(words, s);
    let input = load_input(words, s, 0);
    out_queue(queue, input)
}

// The operator at in-queue q.
pub(crate) fn operator_turn(
    depth: usize,
    words: &[u64; WORDS],
    s: usize,
    q: usize,
) -> Option<OperatorTurn>
    requires { (s < sites_most) × (q < in_queue_count) }
    ensures { result ≡ of_work (places.operator depth s (queue_at (site_in words.now s) q)
        (site_in words.now s).outgoing) }
{
    let incoming = load_in_queue(words, s, q);
    let outgoing = load_out_queue(words, s);
    operator(depth, s, incoming, outgoing)
}

// The timeout, on the net-input that feeds output 0 and the marked outputs.
pub(crate) fn timeout_turn(
    edition: u8,
    words: &[u64; WORDS],
    s: usize,
    marks: [bool; base::OUTPUTS],
    input: Input,
) -> Option<InputTurn>
    requires { s < sites_most }
    ensures { result ≡ of_input_turn (places.timeout edition (queue_at (site_in words.now s) 0)
        (masked marks (site_in words.now s).outputs) input) }
{
    let queue = load_in_queue(words, s, 0);
    let outputs = load_marked(words, s, marks);
    time_out(edition, queue, outputs, input)
}
