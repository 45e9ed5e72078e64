// The rule of the operator, on an in-queue and the out-queue.
ghost use Rattle.std.specs.Prelude.{◌≡◌, Some};
ghost use Rattle.types.specs.declared.Terminator.TheVariants.{End as t_end};
ghost use Rattle.model.specs.Places as spec;
ghost use Rattle.rules.specs.Turns.{of_work};

use crate::queues::{pop_in, push_out};
use types::{InEntry, InQueue, OutEntry, OutQueue, Terminator};

// What becomes of both queues, and the packet that was serviced.
#[derive(Clone, Copy)]
pub struct OperatorTurn {
    pub incoming: InQueue,
    pub outgoing: OutQueue,
    pub serviced: Option<u8>,
}

// A front entry that has been dealt with: its site is serviced if it is in the set.
fn service_if(s: usize, packet: u8, set: u64, incoming: InQueue, outgoing: OutQueue) -> OperatorTurn
    ensures { Some result ≡ of_work (spec.service_if s packet set incoming outgoing) }
{
    let serviced = if sets::member(set, s) {
        Some(packet)
    } else {
        None
    };
    OperatorTurn {
        incoming,
        outgoing,
        serviced,
    }
}

// A front entry with an end: its site is serviced, and the rest of its set goes to the back of the out-queue.
#[tactic(auto, unfolding(model::specs::Places::operate))]
fn end_front(
    depth: usize,
    s: usize,
    front: InEntry,
    incoming: InQueue,
    outgoing: OutQueue,
) -> Option<OperatorTurn>
    ensures { result ≡ of_work (spec.operate depth s incoming outgoing front.packet front.set t_end) }
{
    let rest = sets::without(front.set, s);
    if rest == 0 {
        return Some(service_if(s, front.packet, front.set, pop_in(incoming), outgoing));
    }
    if depth <= outgoing.count {
        return None;
    }
    let entry = OutEntry {
        set: rest,
        packet: front.packet,
        started: false,
    };
    let longer = push_out(depth, outgoing, entry);
    Some(service_if(s, front.packet, front.set, pop_in(incoming), longer))
}

// The operator: the front in-queue entry is discarded, serviced or requeued by its terminator; none where nothing is done.
#[tactic(auto, unfolding(model::specs::Places::operate))]
pub fn operator(
    depth: usize,
    s: usize,
    incoming: InQueue,
    outgoing: OutQueue,
) -> Option<OperatorTurn>
    ensures { result ≡ of_work (spec.operator depth s incoming outgoing) }
{
    let front = incoming.entries[0];
    if incoming.count == 0 {
        return None;
    }
    match front.terminator {
        Terminator::None => None,
        Terminator::Abort => Some(OperatorTurn {
            incoming: pop_in(incoming),
            outgoing,
            serviced: None,
        }),
        Terminator::KeepLocal => Some(service_if(
            s,
            front.packet,
            front.set,
            pop_in(incoming),
            outgoing,
        )),
        Terminator::End => end_front(depth, s, front, incoming, outgoing),
    }
}
