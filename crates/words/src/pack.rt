// A place as two words, its set and its small fields packed, and back. Takes any place and any words.
ghost use Rattle.std.specs.Prelude.{◌≡◌, ◌/◌, ◌%◌, ◌<◌, length};
ghost use Rattle.base.specs.Sizes.{output_count};
ghost use Rattle.types.specs.Numbers.{connection_of};
ghost use Rattle.layout.specs.Packed as spec;

use types::{Connection, InEntry, Input, OutEntry, Output, Phase, Received, Terminator};

fn connection_at(m: u64) -> Connection
    ensures { result ≡ spec.connection_at m }
{
    match m {
        1 => Connection::Unicast,
        2 => Connection::Passthru,
        3 => Connection::AllRemote,
        4 => Connection::SomeLocal,
        5 => Connection::Handed,
        _ => Connection::Branch,
    }
}

fn received_at(m: u64) -> Received
    ensures { result ≡ spec.received_at m }
{
    match m {
        1 => Received::End,
        _ => Received::Abort,
    }
}

fn terminator_at(m: u64) -> Terminator
    ensures { result ≡ spec.terminator_at m }
{
    match m {
        0 => Terminator::None,
        1 => Terminator::End,
        2 => Terminator::Abort,
        _ => Terminator::KeepLocal,
    }
}

fn phase_at(m: u64, connection: Connection, received: Received) -> Phase
    ensures { result ≡ spec.phase_at m connection received }
{
    match m {
        0 => Phase::Free,
        1 => Phase::Seek,
        2 => Phase::Open(connection),
        3 => Phase::Wait(connection),
        4 => Phase::Done(connection, received),
        5 => Phase::Last(connection, received),
        6 => Phase::Abort(connection),
        _ => Phase::FinAbort(connection, received),
    }
}

// The number of a state's connection; 0 where it has none.
fn connection_of(phase: Phase) -> u8
    ensures { result ≡ connection_of phase }
{
    match phase {
        Phase::Free | Phase::Seek => 0,
        Phase::Open(c)
        | Phase::Wait(c)
        | Phase::Done(c, _)
        | Phase::Last(c, _)
        | Phase::Abort(c)
        | Phase::FinAbort(c, _) => types::connection_number(c),
    }
}

// The number of what a state received; 0 where it received nothing.
fn received_of(phase: Phase) -> u8
    ensures { result ≡ spec.received_of phase }
{
    match phase {
        Phase::Done(_, r) | Phase::Last(_, r) | Phase::FinAbort(_, r) => types::received_number(r),
        Phase::Free | Phase::Seek | Phase::Open(_) | Phase::Wait(_) | Phase::Abort(_) => 0,
    }
}

// The state of a net-input by its packed word.
pub(crate) fn phase_from(w: u64) -> Phase
    ensures { result ≡ spec.phase_at (w % 8) (spec.connection_at (w / 8 % 8)) (spec.received_at (w / 64 % 4)) }
{
    phase_at(w % 8, connection_at(w / 8 % 8), received_at(w / 64 % 4))
}

#[tactic(auto, unfolding(layout::specs::Packed::input_from))]
pub(crate) fn input_from(set: u64, w: u64) -> Input
    ensures { result ≡ spec.input_from set w }
{
    Input {
        set,
        phase: phase_from(w),
        outputs: [
            w / 256 % 2 == 1,
            w / 512 % 2 == 1,
            w / 1024 % 2 == 1,
            w / 2048 % 2 == 1,
            w / 4096 % 2 == 1,
            w / 8192 % 2 == 1,
        ],
        packet: (w / 65536 % 256) as u8,
        tries: (w / 16777216 % 256) as u8,
    }
}

// The marks of outputs 0 to 5, each at its bit of a net-input's word.
fn marks_word(marks: [bool; base::OUTPUTS]) -> u64
    ensures { (result ≡ spec.marks_word marks) × (result < 65536) × (length marks ≡ output_count) }
{
    256 * u64::from(marks[0])
        + 512 * u64::from(marks[1])
        + 1024 * u64::from(marks[2])
        + 2048 * u64::from(marks[3])
        + 4096 * u64::from(marks[4])
        + 8192 * u64::from(marks[5])
}

#[tactic(auto, unfolding(layout::specs::Packed::input_word))]
pub(crate) fn input_word(input: Input) -> u64
    ensures { (result ≡ spec.input_word input) × (input.packet < 256) × (input.tries < 256) ×
        (length input.outputs ≡ output_count) }
{
    u64::from(types::state_number(input.phase))
        + 8 * u64::from(connection_of(input.phase))
        + 64 * u64::from(received_of(input.phase))
        + marks_word(input.outputs)
        + 65536 * u64::from(input.packet)
        + 16777216 * u64::from(input.tries)
}

#[tactic(auto, unfolding(layout::specs::Packed::output_from))]
pub(crate) fn output_from(set: u64, w: u64) -> Output
    ensures { result ≡ spec.output_from set w }
{
    Output {
        set,
        terminator: terminator_at(w / 4 % 4),
        packet: (w / 65536 % 256) as u8,
        input: (w / 256 % 256) as u8,
        used: w % 2 == 1,
        head: w / 2 % 2 == 1,
        closing: w / 16 % 2 == 1,
    }
}

#[tactic(auto, unfolding(layout::specs::Packed::output_word))]
pub(crate) fn output_word(output: Output) -> u64
    ensures { (result ≡ spec.output_word output) × (output.packet < 256) × (output.input < 256) }
{
    u64::from(output.used)
        + 2 * u64::from(output.head)
        + 4 * u64::from(types::terminator_number(output.terminator))
        + 16 * u64::from(output.closing)
        + 256 * u64::from(output.input)
        + 65536 * u64::from(output.packet)
}

#[tactic(auto, unfolding(layout::specs::Packed::out_entry_from))]
pub(crate) fn out_entry_from(set: u64, w: u64) -> OutEntry
    ensures { result ≡ spec.out_entry_from set w }
{
    OutEntry {
        set,
        packet: (w / 256 % 256) as u8,
        started: w % 2 == 1,
    }
}

#[tactic(auto, unfolding(layout::specs::Packed::out_entry_word))]
pub(crate) fn out_entry_word(entry: OutEntry) -> u64
    ensures { (result ≡ spec.out_entry_word entry) × (entry.packet < 256) }
{
    u64::from(entry.started) + 256 * u64::from(entry.packet)
}

#[tactic(auto, unfolding(layout::specs::Packed::in_entry_from))]
pub(crate) fn in_entry_from(set: u64, w: u64) -> InEntry
    ensures { result ≡ spec.in_entry_from set w }
{
    InEntry {
        set,
        terminator: terminator_at(w % 4),
        packet: (w / 256 % 256) as u8,
    }
}

#[tactic(auto, unfolding(layout::specs::Packed::in_entry_word))]
pub(crate) fn in_entry_word(entry: InEntry) -> u64
    ensures { (result ≡ spec.in_entry_word entry) × (entry.packet < 256) }
{
    u64::from(types::terminator_number(entry.terminator)) + 256 * u64::from(entry.packet)
}
