// What a net-input's state and a terminator tell, and places with a field changed.
ghost use Rattle.std.specs.Prelude.{◌≡◌};
ghost use Rattle.model.specs.Types as fields;
ghost use Rattle.model.specs.Types.{no_input, no_output, in_phase, out_term, out_head, out_closing};
ghost use Rattle.types.specs.Phases as spec;
ghost use Rattle.model.specs.Places as places;

use types::{Input, Output, Phase, Received, Terminator};

// Whether a net-input can receive a terminator: it is open or abort.
pub fn is_listening(phase: Phase) -> bool
    ensures { result ≡ spec.listening phase }
{
    matches!(phase, Phase::Open(_) | Phase::Abort(_))
}

pub(crate) fn as_terminator(received: Received) -> Terminator
    ensures { result ≡ spec.as_terminator received }
{
    match received {
        Received::End => Terminator::End,
        Received::Abort => Terminator::Abort,
    }
}

// The terminator that a net-input received; none where it received none.
pub fn held_terminator(phase: Phase) -> Terminator
    ensures { result ≡ spec.held phase }
{
    match phase {
        Phase::Done(_, r) | Phase::Last(_, r) | Phase::FinAbort(_, r) => as_terminator(r),
        Phase::Free | Phase::Seek | Phase::Open(_) | Phase::Wait(_) | Phase::Abort(_) => {
            Terminator::None
        }
    }
}

// The state of a net-input after a delivery: open to done, abort to fin-abort.
pub(crate) fn receive(received: Received, phase: Phase) -> Phase
    ensures { result ≡ spec.receive received phase }
{
    match phase {
        Phase::Open(c) => Phase::Done(c, received),
        Phase::Abort(c) => Phase::FinAbort(c, received),
        _ => phase,
    }
}

pub(crate) fn in_phase(input: Input, phase: Phase) -> Input
    ensures { result ≡ in_phase input phase }
{
    Input { phase, ..input }
}

pub(crate) fn with_received(received: Received, input: Input) -> Input
    ensures { result ≡ fields.received received input }
{
    in_phase(input, receive(received, input.phase))
}

pub fn free_input() -> Input
    ensures { result ≡ no_input }
{
    Input {
        set: 0,
        phase: Phase::Free,
        outputs: [false; base::OUTPUTS],
        packet: 0,
        tries: 0,
    }
}

// A net-input that goes to seek with no tries.
pub(crate) fn seeking_input(packet: u8, set: u64) -> Input
    ensures { result ≡ places.seeking packet set }
{
    Input {
        set,
        phase: Phase::Seek,
        packet,
        ..free_input()
    }
}

pub fn empty_output() -> Output
    ensures { result ≡ no_output }
{
    Output {
        set: 0,
        terminator: Terminator::None,
        packet: 0,
        input: 0,
        used: false,
        head: false,
        closing: false,
    }
}

pub(crate) fn with_terminator(output: Output, terminator: Terminator) -> Output
    ensures { result ≡ out_term output terminator }
{
    Output {
        terminator,
        ..output
    }
}

// The output with its head taken.
pub(crate) fn with_head(output: Output) -> Output
    ensures { result ≡ out_head output }
{
    Output {
        head: true,
        ..output
    }
}

// The output when its terminator is delivered and it still holds its channel.
pub(crate) fn closing_output(output: Output) -> Output
    ensures { result ≡ out_closing output }
{
    Output {
        terminator: Terminator::None,
        used: true,
        head: true,
        closing: true,
        ..output
    }
}
