// The clauses of "in range" about one place: a net-input, a net-output, an entry of a queue. A place is tested as one in use or
// as an empty one; the tests of either are joined without a branch, in the order of the model's definitions. No value of
// the state is used as an index.
ghost use Rattle.std.specs.Prelude.{◌≡◌};
ghost use Rattle.base.specs.Sizes.{output_count};
ghost use Rattle.base.specs.Bools.{implies};
ghost use Rattle.base.specs.All.{all};
ghost use Rattle.model.specs.Types.{mark, out_of};
ghost use Rattle.model.specs.Range as spec;
ghost use Rattle.checks.specs.Range.{connection_ok, branch_ok};

use crate::range::phases::{is_aborting, is_branching, is_connected, is_keep, is_splitting};
use types::{InEntry, Input, OutEntry, Output, Phase};

// What places are judged by: the edition, S, T, D and the counter.
#[derive(Clone, Copy)]
pub(crate) struct Limits {
    pub edition: u8,
    pub sites: usize,
    pub tries: u8,
    pub depth: usize,
    pub counter: u8,
}

// The packet below the counter, the set not empty and within S.
fn tag_ok(limits: Limits, packet: u8, set: u64) -> bool
    ensures { result ≡ spec.tag_ok limits.sites limits.counter packet set }
{
    (packet < limits.counter) & sets::is_targets(set, limits.sites)
}

fn any_mark(marks: [bool; base::OUTPUTS]) -> bool
    ensures { result ≡ spec.any_mark marks }
{
    marks[0] | marks[1] | marks[2] | marks[3] | marks[4] | marks[5]
}

fn any_remote(marks: [bool; base::OUTPUTS]) -> bool
    ensures { result ≡ spec.any_remote marks }
{
    marks[1] | marks[2] | marks[3] | marks[4]
}

fn zero_input(input: Input) -> bool
    ensures { result ≡ spec.zero_input input }
{
    types::is_free(input.phase)
        & (input.packet == 0)
        & (input.set == 0)
        & !any_mark(input.outputs)
        & (input.tries == 0)
}

fn zero_output(output: Output) -> bool
    ensures { result ≡ spec.zero_output output }
{
    !output.used
        & (output.packet == 0)
        & (output.set == 0)
        & (output.input == 0)
        & !output.head
        & types::is_none(output.terminator)
        & !output.closing
}

fn zero_out_entry(entry: OutEntry) -> bool
    ensures { result ≡ spec.zero_out_entry entry }
{
    (entry.packet == 0) & (entry.set == 0) & !entry.started
}

fn zero_in_entry(entry: InEntry) -> bool
    ensures { result ≡ spec.zero_in_entry entry }
{
    (entry.packet == 0) & (entry.set == 0) & types::is_none(entry.terminator)
}

// In use, not closing, without a terminator and fed by net-input i.
fn fed_by(i: usize, output: Output) -> bool
    ensures { result ≡ spec.fed_by i output }
{
    output.used
        & !output.closing
        & types::is_none(output.terminator)
        & (base::wide(output.input) == i)
}

// Each output that net-input i marks is fed by it.
fn marks_ok(outputs: [Output; base::OUTPUTS], i: usize, marks: [bool; base::OUTPUTS]) -> bool
    ensures { result ≡ all (λ j. implies (mark marks j) (spec.fed_by i (out_of outputs j))) output_count }
{
    (0..base::OUTPUTS).all(|j| !marks[j] | fed_by(i, outputs[j]))
}

// Connection 6 exactly where the split output is marked, and in edition 3 alone, where 3 and 4 are not.
fn branch_ok(edition: u8, phase: Phase, marked: bool) -> bool
    ensures { result ≡ branch_ok edition phase marked }
{
    let branching = is_branching(phase);
    let splitting = is_splitting(phase);
    let restricted = draws::is_restricted(edition);
    ((marked & branching) | (!marked & !branching))
        & ((restricted & !splitting) | (!restricted & !branching))
}

// The marks of net-input i, which is in this state, with the outputs of its site.
fn connection_ok(
    edition: u8,
    outputs: [Output; base::OUTPUTS],
    i: usize,
    phase: Phase,
    marks: [bool; base::OUTPUTS],
) -> bool
    ensures { result ≡ connection_ok edition outputs i phase marks }
{
    let any = any_mark(marks);
    let connected = is_connected(phase);
    let splitting = is_splitting(phase);
    ((any & connected) | (!any & !connected))
        & marks_ok(outputs, i, marks)
        & (!splitting | marks[0])
        & (!is_aborting(phase) | (splitting & !any_remote(marks)))
        & branch_ok(edition, phase, marks[base::SPLIT_PORT])
}

// Net-input i, with the outputs of its site.
pub(crate) fn input_ok(
    limits: Limits,
    outputs: [Output; base::OUTPUTS],
    i: usize,
    input: Input,
) -> bool
    ensures { result ≡ spec.input_ok limits.edition limits.sites limits.tries limits.counter outputs i input }
{
    if types::is_free(input.phase) {
        return zero_input(input);
    }
    (input.tries <= limits.tries)
        & tag_ok(limits, input.packet, input.set)
        & connection_ok(limits.edition, outputs, i, input.phase, input.outputs)
}

// Net-output j, which is in use, may be closing: edition 2 or 3, an output 1 to 4, head taken, without a terminator.
fn closing_ok(edition: u8, j: usize, output: Output) -> bool
    ensures { result ≡ spec.closing_ok edition j output }
{
    ((edition == 2) | draws::is_restricted(edition))
        & !((j == 0) | (j == base::SPLIT_PORT))
        & output.head
        & types::is_none(output.terminator)
}

// Net-output j; the split output is in use in edition 3 alone.
pub(crate) fn output_ok(limits: Limits, j: usize, output: Output) -> bool
    ensures { result ≡ spec.output_ok limits.edition limits.sites limits.counter j output }
{
    if output.used {
        return tag_ok(limits, output.packet, output.set)
            & (base::wide(output.input) < base::INPUTS)
            & (!is_keep(output.terminator) | (j == 0))
            & (!output.closing | closing_ok(limits.edition, j, output))
            & ((j != base::SPLIT_PORT) | draws::is_restricted(limits.edition));
    }
    zero_output(output)
}

// Entry m of an out-queue that has `count`.
pub(crate) fn out_entry_ok(limits: Limits, count: usize, m: usize, entry: OutEntry) -> bool
    ensures { result ≡ spec.out_entry_ok limits.sites limits.counter count m entry }
{
    if m < count {
        return tag_ok(limits, entry.packet, entry.set) & (!entry.started | (m == 0));
    }
    zero_out_entry(entry)
}

// Entry m of an in-queue that has `count`.
pub(crate) fn in_entry_ok(limits: Limits, count: usize, m: usize, entry: InEntry) -> bool
    ensures { result ≡ spec.in_entry_ok limits.sites limits.counter count m entry }
{
    if m < count {
        return tag_ok(limits, entry.packet, entry.set);
    }
    zero_in_entry(entry)
}
