// SEND in place: its own refusals, then the new entry, the count and the counter's word.
ghost use Rattle.std.specs.Prelude.{◌≡◌, ◌+◌, ◌<◌, ◌≤◌};
ghost use Rattle.base.specs.Refusals.{refusal_of};
ghost use Rattle.base.specs.Sizes.{sites_most, queue_room, packets_most};
ghost use Rattle.model.specs.Types.{set_site, with_out_queue, push_out};
ghost use Rattle.model.specs.Steps.{enqueue};
ghost use Rattle.model.specs.Events.{send_fault_by, sends};
ghost use Rattle.layout.specs.Words.{sites_of, state_of};
ghost use Rattle.layout.specs.Stored.{Stored, Counted, leaving_set, leaving_count};
ghost use Rattle.words.specs.Events as spec;
ghost use Rattle.words.specs.Events.{Took, site_in};

use crate::load::{load_counter, out_count};
use crate::store::{store_counter, store_out_count, store_out_entry};
use base::Refusal;
use layout::WORDS;
use types::{OutEntry, Sent};

// The entries of site s's out-queue; none where there is no such site.
fn out_entries(words: &[u64; WORDS], s: usize) -> usize
    ensures { result ≡ (site_in words.now s).outgoing.count }
{
    if s < base::SITES {
        out_count(words, s)
    } else {
        0
    }
}

// SEND's own refusal: 9, 10, 12 or 11.
fn own_refusal(
    sites: usize,
    depth: usize,
    words: &[u64; WORDS],
    s: usize,
    set: u64,
) -> Result<(), Refusal>
    ensures { refusal_of result ≡ send_fault_by sites depth (state_of words.now).counter
        (site_in words.now s).outgoing.count s set }
{
    let packet = load_counter(words);
    let entries = out_entries(words, s);
    checks::send_fault(sites, depth, packet, entries, s, set)
}

// An entry at place m of site s's out-queue, and the count after it.
fn store_entry(words: &mut [u64; WORDS], s: usize, m: usize, entry: OutEntry)
    requires { (s < sites_most) × (m < queue_room) }
    ensures { Stored words.old words.new
        (set_site (sites_of words.old) s
        (leaving_count (leaving_set (site_in words.old s) m entry) (m + 1))) }
{
    store_out_entry(words, s, m, entry);
    store_out_count(words, s, m + 1);
}

// An entry at the back of site s's out-queue.
fn push_entry(words: &mut [u64; WORDS], s: usize, entry: OutEntry)
    requires { (s < sites_most) × ((site_in words.old s).outgoing.count < 8) }
    ensures { Stored words.old words.new
        (set_site (sites_of words.old) s
        (with_out_queue (site_in words.old s) (push_out (site_in words.old s).outgoing entry))) }
{
    let entries = out_count(words, s);
    store_entry(words, s, entries, entry);
}

// The packet at the back of site s's out-queue, not started, and the counter after it.
fn store_packet(words: &mut [u64; WORDS], s: usize, packet: u8, set: u64)
    requires { (s < sites_most) × ((site_in words.old s).outgoing.count < queue_room) × (packet < packets_most) }
    ensures { Counted words.old words.new (enqueue (sites_of words.old) s packet set) (packet + 1) }
{
    let entry = OutEntry {
        set,
        packet,
        started: false,
    };
    push_entry(words, s, entry);
    store_counter(words, packet + 1);
}

// SEND (s, set) that nothing refuses.
fn accept(words: &mut [u64; WORDS], s: usize, set: u64) -> Sent
    requires { (s < sites_most) × ((site_in words.old s).outgoing.count < 8) × ((state_of words.old).counter < 255) }
    ensures { Took words.old words.new result (sends (state_of words.old) s set) }
{
    let packet = load_counter(words);
    store_packet(words, s, packet, set);
    Sent::Accepted(packet)
}

// SEND (s, set) on the words of a state, for a network with these sites and this depth.
pub(crate) fn send_in_place(
    sites: usize,
    depth: usize,
    words: &mut [u64; WORDS],
    s: usize,
    set: u64,
) -> Sent
    requires { (sites ≤ sites_most) × (depth ≤ queue_room) }
    ensures { Took words.old words.new result (spec.tried sites depth (state_of words.old) s set) }
{
    if let Err(refusal) = own_refusal(sites, depth, words, s, set) {
        return Sent::Refused(u8::from(refusal));
    }
    accept(words, s, set)
}
