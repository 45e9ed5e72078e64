// The queues of a site, the out-queue and the in-queues: an entry more at the back, the front away, the last entry's
// terminator. Any count is taken: beyond a queue's room a write does nothing and a read gives the zero entry.
ghost use Rattle.std.specs.Prelude.{◌≡◌, cond, ltb, set};
ghost use Rattle.model.specs.Types as spec;
ghost use Rattle.model.specs.Places.{last_of, last_lacks, end_last, start_front};
ghost use Rattle.rules.specs.Turns.{shifted};

use types::{InEntry, InQueue, OutEntry, OutQueue, Terminator};

// The entries with an entry in place m.
fn stored<T: Copy>(entries: [T; base::QUEUE], m: usize, entry: T) -> [T; base::QUEUE]
    ensures { result ≡ set entries m entry }
{
    let mut next = entries;
    if m < base::QUEUE {
        next[m] = entry;
    }
    next
}

// The entries without the front, `none` behind the last.
fn shifted<T: Copy>(all: [T; base::QUEUE], none: T) -> [T; base::QUEUE]
    ensures { result ≡ shifted none all }
{
    [all[1], all[2], all[3], all[4], all[5], all[6], all[7], none]
}

// The two queues stay two types, as crates/types says why, and so each has its own push and pop.

// The out-queue with an entry more, if it has fewer than depth.
pub fn push_out(depth: usize, queue: OutQueue, entry: OutEntry) -> OutQueue
    ensures { result ≡ cond (ltb queue.count depth) (spec.push_out queue entry) queue }
{
    if depth <= queue.count {
        return queue;
    }
    OutQueue {
        entries: stored(queue.entries, queue.count, entry),
        count: queue.count + 1,
    }
}

// The in-queue with an entry more, if it has fewer than depth.
pub(crate) fn push_in(depth: usize, queue: InQueue, entry: InEntry) -> InQueue
    ensures { result ≡ cond (ltb queue.count depth) (spec.push_in queue entry) queue }
{
    if depth <= queue.count {
        return queue;
    }
    InQueue {
        entries: stored(queue.entries, queue.count, entry),
        count: queue.count + 1,
    }
}

// An out-queue entry that is none.
const NO_OUT_ENTRY: OutEntry = OutEntry {
    set: 0,
    packet: 0,
    started: false,
};

// An in-queue entry that is none.
const NO_IN_ENTRY: InEntry = InEntry {
    set: 0,
    terminator: Terminator::None,
    packet: 0,
};

pub(crate) fn pop_out(queue: OutQueue) -> OutQueue
    ensures { result ≡ spec.pop_out queue }
{
    OutQueue {
        entries: shifted(queue.entries, NO_OUT_ENTRY),
        count: base::one_less(queue.count),
    }
}

pub(crate) fn pop_in(queue: InQueue) -> InQueue
    ensures { result ≡ spec.pop_in queue }
{
    InQueue {
        entries: shifted(queue.entries, NO_IN_ENTRY),
        count: base::one_less(queue.count),
    }
}

// The queue with its front started.
pub(crate) fn start_front(queue: OutQueue) -> OutQueue
    ensures { result ≡ start_front queue }
{
    let mut next = queue;
    next.entries[0].started = true;
    next
}

// The in-queue's last entry.
fn last_of(queue: InQueue) -> InEntry
    ensures { result ≡ last_of queue }
{
    queue
        .entries
        .get(base::one_less(queue.count))
        .copied()
        .unwrap_or(NO_IN_ENTRY)
}

// Whether the in-queue has a last entry that lacks a terminator.
pub(crate) fn last_lacks(queue: InQueue) -> bool
    ensures { result ≡ last_lacks queue }
{
    (0 < queue.count) & types::is_none(last_of(queue).terminator)
}

// The in-queue's last entry gets a terminator.
pub(crate) fn end_last(queue: InQueue, terminator: Terminator) -> InQueue
    ensures { result ≡ end_last queue terminator }
{
    let entry = InEntry {
        terminator,
        ..last_of(queue)
    };
    InQueue {
        entries: stored(queue.entries, base::one_less(queue.count), entry),
        ..queue
    }
}
