// The two places that a rule changes, stored one after the other.
ghost use Rattle.std.specs.Prelude.{suc, ◌<◌};
ghost use Rattle.base.specs.Sizes.{sites_most, input_count, port_count, in_queue_count};
ghost use Rattle.model.specs.Types.{set_site, set_in, set_out, set_queue, with_out_queue, queue_port};
ghost use Rattle.model.specs.Steps.{set_both, set_far};
ghost use Rattle.layout.specs.Layout.{end_count};
ghost use Rattle.layout.specs.Words.{sites_of};
ghost use Rattle.layout.specs.Stored.{Stored};
ghost use Rattle.words.specs.Events.{site_in};
ghost use Rattle.words.specs.Marked.{merged};

use crate::marked::store_marked;
use crate::store::{store_in_queue, store_input, store_out_queue, store_output};
use layout::WORDS;
use types::{InQueue, Input, OutQueue, Output};

// In-queue q and the output that fills it.
pub(crate) fn store_local(
    words: &mut [u64; WORDS],
    s: usize,
    q: usize,
    queue: InQueue,
    output: Output,
)
    requires { (s < sites_most) × (q < in_queue_count) }
    ensures { Stored words.old words.new
        (set_site (sites_of words.old) s
        (set_out (set_queue (site_in words.old s) q queue) (queue_port q) output)) }
{
    store_in_queue(words, s, q, queue);
    store_output(words, s, base::SPLIT_PORT * q, output);
}

// Output j + 1, and the input at the end of its channel, this one.
pub(crate) fn store_passed(
    words: &mut [u64; WORDS],
    s: usize,
    j: usize,
    output: Output,
    channel: u16,
    input: Input,
)
    requires { (s < sites_most) × (j < port_count) × (channel < end_count) }
    ensures { Stored words.old words.new
        (set_far (set_site (sites_of words.old) s (set_out (site_in words.old s) (suc j) output))
        channel input) }
{
    let b = base::wider(channel);
    store_output(words, s, j + 1, output);
    store_input(words, b / base::PORTS, b % base::PORTS + 1, input);
}

// The out-queue and net-input 0.
pub(crate) fn store_leaving(words: &mut [u64; WORDS], s: usize, queue: OutQueue, input: Input)
    requires { s < sites_most }
    ensures { Stored words.old words.new
        (set_site (sites_of words.old) s
        (set_in (with_out_queue (site_in words.old s) queue) 0 input)) }
{
    store_out_queue(words, s, queue);
    store_input(words, s, 0, input);
}

// In-queue q and the out-queue.
pub(crate) fn store_queues(
    words: &mut [u64; WORDS],
    s: usize,
    q: usize,
    incoming: InQueue,
    outgoing: OutQueue,
)
    requires { (s < sites_most) × (q < in_queue_count) }
    ensures { Stored words.old words.new
        (set_site (sites_of words.old) s
        (with_out_queue (set_queue (site_in words.old s) q incoming) outgoing)) }
{
    store_in_queue(words, s, q, incoming);
    store_out_queue(words, s, outgoing);
}

// The marked outputs and net-input i.
pub(crate) fn store_both(
    words: &mut [u64; WORDS],
    s: usize,
    i: usize,
    marks: [bool; base::OUTPUTS],
    outputs: [Output; base::OUTPUTS],
    input: Input,
)
    requires { (s < sites_most) × (i < input_count) }
    ensures { Stored words.old words.new
        (set_site (sites_of words.old) s
        (set_both (site_in words.old s) i input (merged marks outputs (site_in words.old s).outputs))) }
{
    store_marked(words, s, marks, outputs);
    store_input(words, s, i, input);
}
