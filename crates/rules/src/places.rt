// The rules of a net-output and the out-queue, each on the two places that it looks at; none where they stay.
ghost use Rattle.std.specs.Prelude.{◌≡◌, cond};
ghost use Rattle.types.specs.Phases.{is_none};
ghost use Rattle.model.specs.Places as spec;
ghost use Rattle.model.specs.NetInput.{Stay};
ghost use Rattle.rules.specs.Turns.{of_local_turn, of_channel_turn, of_queue_turn};

use crate::phases::{
    closing_output, empty_output, is_listening, seeking_input, with_head, with_received,
};
use crate::queues::{end_last, last_lacks, pop_out, push_in, start_front};
use types::{InEntry, InQueue, Input, OutQueue, Output, Received, Terminator};

// What becomes of output 0 and its in-queue, or the split output and its.
#[derive(Clone, Copy)]
pub struct LocalTurn {
    pub queue: InQueue,
    pub output: Output,
}

// What becomes of an output 1 to 4 and the input at the end of its channel.
#[derive(Clone, Copy)]
pub struct ChannelTurn {
    pub output: Output,
    pub input: Input,
}

// What becomes of the out-queue and net-input 0.
#[derive(Clone, Copy)]
pub struct QueueTurn {
    pub queue: OutQueue,
    pub input: Input,
}

// The head of output 0, or of the split output, to its in-queue, if that has room.
fn local_head(depth: usize, output: Output, queue: InQueue) -> Option<LocalTurn>
    ensures { result ≡ of_local_turn (spec.head_in depth output queue) }
{
    if depth <= queue.count {
        return None;
    }
    let entry = InEntry {
        set: output.set,
        terminator: Terminator::None,
        packet: output.packet,
    };
    Some(LocalTurn {
        queue: push_in(depth, queue, entry),
        output: with_head(output),
    })
}

// The terminator of either, if it has one, to the in-queue's last entry.
fn local_terminator(output: Output, queue: InQueue) -> Option<LocalTurn>
    ensures { result ≡ of_local_turn (cond (is_none output.terminator) Stay (spec.term_in output queue)) }
{
    if types::is_none(output.terminator) | !last_lacks(queue) {
        return None;
    }
    Some(LocalTurn {
        queue: end_last(queue, output.terminator),
        output: empty_output(),
    })
}

// Net-output 0, or the split output: its head to its in-queue, then its terminator to the in-queue's last entry.
#[tactic(auto, unfolding(model::specs::Places::local_output))]
pub fn local_output(depth: usize, output: Output, queue: InQueue) -> Option<LocalTurn>
    ensures { result ≡ of_local_turn (spec.local_output depth output queue) }
{
    if !output.used {
        return None;
    }
    if output.head {
        local_terminator(output, queue)
    } else {
        local_head(depth, output, queue)
    }
}

// The head of an output 1 to 4 to the input at the end of its channel, if that is free.
fn channel_head(there: bool, output: Output, input: Input) -> Option<ChannelTurn>
    ensures { result ≡ of_channel_turn (spec.head_on there output input) }
{
    if there & types::is_free(input.phase) {
        return Some(ChannelTurn {
            output: with_head(output),
            input: seeking_input(output.packet, output.set),
        });
    }
    None
}

// What delivery leaves of an output 1 to 4: one that is closing in editions 2 and 3, else an empty one.
fn delivered_output(edition: u8, output: Output) -> Output
    ensures { result ≡ spec.delivered edition output }
{
    if (edition == 2) | draws::is_restricted(edition) {
        return closing_output(output);
    }
    empty_output()
}

// An output 1 to 4 delivers a terminator to the input at the end of its channel, if that is open or abort.
fn deliver_received(
    edition: u8,
    there: bool,
    output: Output,
    input: Input,
    received: Received,
) -> Option<ChannelTurn>
    ensures { result ≡ of_channel_turn (spec.term_on edition there output input received) }
{
    if there & is_listening(input.phase) {
        return Some(ChannelTurn {
            output: delivered_output(edition, output),
            input: with_received(received, input),
        });
    }
    None
}

// The terminator of an output 1 to 4, if it has one.
#[tactic(auto, unfolding(model::specs::Places::deliver))]
fn channel_terminator(edition: u8, there: bool, output: Output, input: Input) -> Option<ChannelTurn>
    ensures { result ≡ of_channel_turn (spec.deliver edition there output input output.terminator) }
{
    match output.terminator {
        Terminator::None | Terminator::KeepLocal => None,
        Terminator::End => deliver_received(edition, there, output, input, Received::End),
        Terminator::Abort => deliver_received(edition, there, output, input, Received::Abort),
    }
}

// An output 1 to 4 that is closing gives its channel up, if the input at its end is free.
fn give_up(there: bool, input: Input) -> Option<ChannelTurn>
    ensures { result ≡ of_channel_turn (spec.give_up there input) }
{
    if there & types::is_free(input.phase) {
        return Some(ChannelTurn {
            output: empty_output(),
            input,
        });
    }
    None
}

// A net-output 1 to 4: its head to the input at the end of its channel, then its terminator, then, if it is closing, the
// channel itself.
#[tactic(auto, unfolding(model::specs::Places::channel_output))]
pub fn channel_output(edition: u8, there: bool, output: Output, input: Input) -> Option<ChannelTurn>
    ensures { result ≡ of_channel_turn (spec.channel_output edition there output input) }
{
    if !output.used {
        return None;
    }
    if !output.head {
        return channel_head(there, output, input);
    }
    if output.closing {
        give_up(there, input)
    } else {
        channel_terminator(edition, there, output, input)
    }
}

// The out-queue: net-input 0 takes the front, or receives its end.
#[tactic(auto, unfolding(model::specs::Places::out_queue))]
pub fn out_queue(queue: OutQueue, input: Input) -> Option<QueueTurn>
    ensures { result ≡ of_queue_turn (spec.out_queue queue input) }
{
    let front = queue.entries[0];
    if queue.count == 0 {
        return None;
    }
    if front.started & is_listening(input.phase) {
        return Some(QueueTurn {
            queue: pop_out(queue),
            input: with_received(Received::End, input),
        });
    }
    if !front.started & types::is_free(input.phase) {
        return Some(QueueTurn {
            queue: start_front(queue),
            input: seeking_input(front.packet, front.set),
        });
    }
    None
}
