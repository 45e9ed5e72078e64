// The timeout, on the in-queue, the outputs and the net-input that feeds output 0; none where nothing changes.
ghost use Rattle.std.specs.Prelude.{◌≡◌, Some};
ghost use Rattle.model.specs.Places as spec;
ghost use Rattle.rules.specs.Turns.{of_input_turn, cuts, cut_phase, cut_if};

use crate::inputs::InputTurn;
use crate::queues::last_lacks;
use crate::terminators::give_terminators;
use types::{InQueue, Input, Output, Phase, Terminator};

// Whether a net-input is open, wait, done or last with connection 3 or 4: no timeout changes another.
pub fn can_cut(phase: Phase) -> bool
    ensures { result ≡ cuts phase }
{
    match phase {
        Phase::Open(c) | Phase::Wait(c) | Phase::Done(c, _) | Phase::Last(c, _) => types::is_split(
            c,
        ),
        Phase::Free | Phase::Seek | Phase::Abort(_) | Phase::FinAbort(_, _) => false,
    }
}

// Its state after that: abort from open or wait, fin-abort from done or last.
fn cut_phase(phase: Phase) -> Phase
    ensures { result ≡ cut_phase phase }
{
    match phase {
        Phase::Open(c) | Phase::Wait(c) => Phase::Abort(c),
        Phase::Done(c, r) | Phase::Last(c, r) => Phase::FinAbort(c, r),
        Phase::Free | Phase::Seek | Phase::Abort(_) | Phase::FinAbort(_, _) => phase,
    }
}

// Its remote outputs get abort and are disconnected.
#[tactic(auto, using(crate::proofs::Cut::give_aborts))]
fn cut_off(input: Input, outputs: [Output; base::OUTPUTS]) -> InputTurn
    ensures { Some result ≡ of_input_turn (spec.cut_off input outputs (cut_phase input.phase)) }
{
    let mut remote = input.outputs;
    remote[0] = false;
    let mut local = [false; base::OUTPUTS];
    local[0] = input.outputs[0];
    InputTurn {
        outputs: give_terminators(outputs, remote, [Terminator::Abort; base::OUTPUTS]),
        input: Input {
            phase: cut_phase(input.phase),
            outputs: local,
            ..input
        },
    }
}

// Whether output 0 waits for its terminator: it awaits one and its head is taken.
fn is_stalled(output: Output) -> bool
    ensures { result ≡ spec.stalled output }
{
    output.used & !output.closing & types::is_none(output.terminator) & output.head
}

// The timeout in editions 1 and 2: ignored unless output 0 waits for a terminator that a split withholds.
fn cut_if(queue: InQueue, outputs: [Output; base::OUTPUTS], input: Input) -> Option<InputTurn>
    ensures { result ≡ of_input_turn (cut_if queue outputs input) }
{
    if last_lacks(queue) & is_stalled(outputs[0]) & can_cut(input.phase) {
        return Some(cut_off(input, outputs));
    }
    None
}

// The timeout: the same, and nothing in edition 3.
pub fn time_out(
    edition: u8,
    queue: InQueue,
    outputs: [Output; base::OUTPUTS],
    input: Input,
) -> Option<InputTurn>
    ensures { result ≡ of_input_turn (spec.timeout edition queue outputs input) }
{
    if draws::is_restricted(edition) {
        return None;
    }
    cut_if(queue, outputs, input)
}
