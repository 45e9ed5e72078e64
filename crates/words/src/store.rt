// Places written into the words of a state. Each store leaves the words of the state with that place changed (layout's
// specs/Stored.antt).
ghost use Rattle.std.specs.Prelude.{◌≡◌, ◌<◌};
ghost use Rattle.base.specs.Sizes.{sites_most, input_count, output_count, in_queue_count, queue_room};
ghost use Rattle.model.specs.Types.{site_at, set_site, set_in, set_out, set_queue, with_out_queue};
ghost use Rattle.layout.specs.Layout.{site_places};
ghost use Rattle.layout.specs.Words.{sites_of};
ghost use Rattle.layout.specs.Stored.{placed, Stored, Counted, leaving_set, leaving_all, leaving_count, arrived_set, arrived_all, arrived_count};

use crate::pack::{in_entry_word, input_word, out_entry_word, output_word};
use layout::{
    ARRIVED_FROM, COUNTER_AT, COUNTS_FROM, LEAVING_FROM, OUTPUTS_FROM, SITE_PLACES, WORDS,
};
use types::{InEntry, InQueue, Input, OutEntry, OutQueue, Output};

// Both words of place k of site s.
fn store_place(words: &mut [u64; WORDS], s: usize, k: usize, set: u64, w: u64)
    requires { (s < sites_most) × (k < site_places) }
    ensures { words.new ≡ placed words.old s k set w }
{
    words[2 * (SITE_PLACES * s + k)] = set;
    words[2 * (SITE_PLACES * s + k) + 1] = w;
}

pub(crate) fn store_input(words: &mut [u64; WORDS], s: usize, i: usize, input: Input)
    requires { (s < sites_most) × (i < input_count) }
    ensures { Stored words.old words.new
        (set_site (sites_of words.old) s (set_in (site_at (sites_of words.old) s) i input)) }
{
    store_place(words, s, i, input.set, input_word(input));
}

pub(crate) fn store_output(words: &mut [u64; WORDS], s: usize, j: usize, output: Output)
    requires { (s < sites_most) × (j < output_count) }
    ensures { Stored words.old words.new
        (set_site (sites_of words.old) s (set_out (site_at (sites_of words.old) s) j output)) }
{
    store_place(words, s, OUTPUTS_FROM + j, output.set, output_word(output));
}

// Entry m of site s's out-queue, the count as it was.
pub(crate) fn store_out_entry(words: &mut [u64; WORDS], s: usize, m: usize, entry: OutEntry)
    requires { (s < sites_most) × (m < queue_room) }
    ensures { Stored words.old words.new
        (set_site (sites_of words.old) s (leaving_set (site_at (sites_of words.old) s) m entry)) }
{
    store_place(words, s, LEAVING_FROM + m, entry.set, out_entry_word(entry));
}

// Entry m of site s's in-queue q, the count as it was.
pub(crate) fn store_in_entry(words: &mut [u64; WORDS], s: usize, q: usize, m: usize, entry: InEntry)
    requires { (s < sites_most) × (q < in_queue_count) × (m < queue_room) }
    ensures { Stored words.old words.new
        (set_site (sites_of words.old) s (arrived_set (site_at (sites_of words.old) s) q m entry)) }
{
    let k = ARRIVED_FROM + (base::QUEUE * q + m);
    store_place(words, s, k, entry.set, in_entry_word(entry));
}

// The out-queue and the in-queues have functions of their own: one over both would take an entry's type, packing and place as
// parameters, and that is longer than two loops of one line.
// The entries of site s's out-queue, the count as it was.
fn store_out_entries(words: &mut [u64; WORDS], s: usize, entries: [OutEntry; base::QUEUE])
    requires { s < sites_most }
    ensures { Stored words.old words.new
        (set_site (sites_of words.old) s (leaving_all (site_at (sites_of words.old) s) entries)) }
{
    for (m, entry) in entries.iter().enumerate() {
        store_out_entry(words, s, m, *entry);
    }
}

// The entries of site s's in-queue q, the count as it was.
fn store_in_entries(words: &mut [u64; WORDS], s: usize, q: usize, entries: [InEntry; base::QUEUE])
    requires { (s < sites_most) × (q < in_queue_count) }
    ensures { Stored words.old words.new
        (set_site (sites_of words.old) s (arrived_all (site_at (sites_of words.old) s) q entries)) }
{
    for (m, entry) in entries.iter().enumerate() {
        store_in_entry(words, s, q, m, *entry);
    }
}

// The counts of site s's queues; the word beside a count stays.
pub(crate) fn store_out_count(words: &mut [u64; WORDS], s: usize, count: usize)
    requires { s < sites_most }
    ensures { Stored words.old words.new
        (set_site (sites_of words.old) s (leaving_count (site_at (sites_of words.old) s) count)) }
{
    words[2 * (SITE_PLACES * s + COUNTS_FROM)] = count as u64;
}

pub(crate) fn store_in_count(words: &mut [u64; WORDS], s: usize, q: usize, count: usize)
    requires { (s < sites_most) × (q < in_queue_count) }
    ensures { Stored words.old words.new
        (set_site (sites_of words.old) s (arrived_count (site_at (sites_of words.old) s) q count)) }
{
    words[2 * (SITE_PLACES * s + (COUNTS_FROM + 1 + q))] = count as u64;
}

pub(crate) fn store_out_queue(words: &mut [u64; WORDS], s: usize, queue: OutQueue)
    requires { s < sites_most }
    ensures { Stored words.old words.new
        (set_site (sites_of words.old) s (with_out_queue (site_at (sites_of words.old) s) queue)) }
{
    store_out_entries(words, s, queue.entries);
    store_out_count(words, s, queue.count);
}

pub(crate) fn store_in_queue(words: &mut [u64; WORDS], s: usize, q: usize, queue: InQueue)
    requires { (s < sites_most) × (q < in_queue_count) }
    ensures { Stored words.old words.new
        (set_site (sites_of words.old) s (set_queue (site_at (sites_of words.old) s) q queue)) }
{
    store_in_entries(words, s, q, queue.entries);
    store_in_count(words, s, q, queue.count);
}

// The counter's word.
pub(crate) fn store_counter(words: &mut [u64; WORDS], counter: u8)
    ensures { Counted words.old words.new (sites_of words.old) counter }
{
    words[COUNTER_AT] = u64::from(counter);
}
