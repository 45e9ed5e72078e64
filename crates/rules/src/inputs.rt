// The rules of a net-input, each on the net-input and the site's outputs; none where they stay.
ghost use Rattle.std.specs.Prelude.{◌≡◌, cond, set, Some};
ghost use Rattle.types.specs.Phases.{as_terminator};
ghost use Rattle.model.specs.Types as spec;
ghost use Rattle.model.specs.NetInput as rule;
ghost use Rattle.model.specs.NetInput.{Stay, To};
ghost use Rattle.model.specs.Router.{is_chosen};
ghost use Rattle.rules.specs.Turns.{of_input_turn, per_output, seek_turn, other_turn};

use crate::phases::{as_terminator, free_input, in_phase, with_terminator};
use crate::router::{Choice, one_output};
use crate::terminators::{give_terminators, terminators};
use types::{Connection, Input, Output, Phase, Received, Terminator};

// What becomes of a net-input and the site's outputs.
#[derive(Clone, Copy)]
pub struct InputTurn {
    pub outputs: [Output; base::OUTPUTS],
    pub input: Input,
}

// An output that is taken with its set by net-input i.
fn taken(packet: u8, i: u8, set: u64) -> Output
    ensures { result ≡ rule.taken packet i set }
{
    Output {
        set,
        terminator: Terminator::None,
        packet,
        input: i,
        used: true,
        head: false,
        closing: false,
    }
}

// The chosen outputs in use.
fn occupied(
    packet: u8,
    i: u8,
    sets: [u64; base::OUTPUTS],
    outputs: [Output; base::OUTPUTS],
) -> [Output; base::OUTPUTS]
    ensures { result ≡ rule.occupy packet i sets outputs }
{
    let mut next = outputs;
    for (j, set) in sets.iter().enumerate() {
        if *set != 0 {
            next[j] = taken(packet, i, *set);
        }
    }
    next
}

// The marks of the chosen outputs.
fn marks(sets: [u64; base::OUTPUTS]) -> [bool; base::OUTPUTS]
    ensures { result ≡ per_output (is_chosen sets) }
{
    sets.map(|set| set != 0)
}

// Whether all outputs that are marked are ready.
pub fn all_ready(ready: [bool; base::OUTPUTS], marks: [bool; base::OUTPUTS]) -> bool
    ensures { result ≡ rule.all_ready (spec.mark ready) marks }
{
    (0..base::OUTPUTS).all(|j| !marks[j] | ready[j])
}

// A net-input put in open, its chosen outputs in use.
#[tactic(auto, unfolding(model::specs::NetInput::marks_of, base::specs::Over::over))]
fn opened(i: u8, input: Input, outputs: [Output; base::OUTPUTS], choice: Choice) -> InputTurn
    ensures { Some result ≡ of_input_turn (rule.opened i input outputs choice.connection choice.sets) }
{
    InputTurn {
        outputs: occupied(input.packet, i, choice.sets, outputs),
        input: Input {
            phase: Phase::Open(choice.connection),
            outputs: marks(choice.sets),
            ..input
        },
    }
}

// The router's choice put to work; one more try, or the packet handed, where nothing serves.
#[tactic(auto, unfolding(model::specs::NetInput::seek))]
pub fn seek_turn(
    limit: u8,
    i: u8,
    input: Input,
    outputs: [Output; base::OUTPUTS],
    choice: Option<Choice>,
) -> Option<InputTurn>
    ensures { result ≡ seek_turn limit i input outputs choice }
{
    if let Some(choice) = choice {
        return Some(opened(i, input, outputs, choice));
    }
    if input.tries < limit {
        return Some(InputTurn {
            outputs,
            input: Input {
                tries: input.tries + 1,
                ..input
            },
        });
    }
    if outputs[0].used {
        return None;
    }
    let whole = one_output(Connection::Handed, input.set, 0);
    Some(opened(i, input, outputs, whole))
}

// A net-input goes to another state, or stays.
fn turn_if(
    turns: bool,
    input: Input,
    outputs: [Output; base::OUTPUTS],
    phase: Phase,
) -> Option<InputTurn>
    ensures { result ≡ of_input_turn (cond turns (To (spec.in_phase input phase) outputs) Stay) }
{
    if turns {
        return Some(InputTurn {
            outputs,
            input: in_phase(input, phase),
        });
    }
    None
}

// A net-input that received a terminator gives its connected outputs theirs by the table and goes free.
fn finish(
    connection: Connection,
    received: Received,
    input: Input,
    outputs: [Output; base::OUTPUTS],
) -> InputTurn
    ensures { Some result ≡
        of_input_turn (To spec.no_input (rule.give (rule.table received connection) input.outputs outputs)) }
{
    InputTurn {
        outputs: give_terminators(outputs, input.outputs, terminators(received, connection)),
        input: free_input(),
    }
}

// A net-input in fin-abort gives output 0 the terminator that it received and goes free.
fn finish_abort(received: Received, outputs: [Output; base::OUTPUTS]) -> InputTurn
    ensures { Some result ≡
        of_input_turn (To spec.no_input (set outputs 0 (spec.out_term (spec.out_of outputs 0) (as_terminator received)))) }
{
    let mut next = outputs;
    next[0] = with_terminator(outputs[0], as_terminator(received));
    InputTurn {
        outputs: next,
        input: free_input(),
    }
}

// A net-input in any state but seek; ready tells which outputs are ready.
#[tactic(auto, using(crate::proofs::ByState::cond_not), unfolding(crate::specs::Turns::other_turn, model::specs::NetInput::in_state))]
pub fn other_input(
    input: Input,
    outputs: [Output; base::OUTPUTS],
    ready: [bool; base::OUTPUTS],
) -> Option<InputTurn>
    ensures { result ≡ of_input_turn (other_turn input outputs (spec.mark ready)) }
{
    let all = all_ready(ready, input.outputs);
    match input.phase {
        Phase::Free | Phase::Seek | Phase::Abort(_) => None,
        Phase::Open(c) => turn_if(!all, input, outputs, Phase::Wait(c)),
        Phase::Wait(c) => turn_if(all, input, outputs, Phase::Open(c)),
        Phase::Done(c, r) => {
            if all {
                return Some(finish(c, r, input, outputs));
            }
            turn_if(true, input, outputs, Phase::Last(c, r))
        }
        Phase::Last(c, r) => turn_if(all, input, outputs, Phase::Done(c, r)),
        Phase::FinAbort(_, r) => {
            if ready[0] {
                return Some(finish_abort(r, outputs));
            }
            None
        }
    }
}
