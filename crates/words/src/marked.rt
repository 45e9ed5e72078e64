// The outputs of a site that an arm of a net-input looks at: those with a mark read and written, and for the router whether each is in use.
ghost use Rattle.std.specs.Prelude.{◌≡◌, cond, ◌&&◌, ◌<◌};
ghost use Rattle.base.specs.Sizes.{sites_most, output_count, split_port};
ghost use Rattle.draws.specs.Draws.{restricted};
ghost use Rattle.model.specs.Types.{no_output, out_at, set_site, set_out, with_outputs};
ghost use Rattle.layout.specs.Words.{sites_of};
ghost use Rattle.layout.specs.Stored.{Stored};
ghost use Rattle.words.specs.Events.{site_in};
ghost use Rattle.words.specs.Marked as spec;

use crate::load::{is_used, load_output};
use crate::store::store_output;
use layout::WORDS;
use rules::{InputTurn, empty_output};
use std::array;
use types::{Output, Phase};

// Output j of site s if it is marked.
fn load_if(words: &[u64; WORDS], s: usize, j: usize, marked: bool) -> Output
    requires { (s < sites_most) × (j < output_count) }
    ensures { result ≡ cond marked (out_at (site_in words.now s) j) no_output }
{
    if marked {
        load_output(words, s, j)
    } else {
        empty_output()
    }
}

pub(crate) fn load_marked(
    words: &[u64; WORDS],
    s: usize,
    marks: [bool; base::OUTPUTS],
) -> [Output; base::OUTPUTS]
    requires { s < sites_most }
    ensures { result ≡ spec.masked marks (site_in words.now s).outputs }
{
    array::from_fn(|j| load_if(words, s, j, marks[j]))
}

// Output j of site s, if it is marked.
fn store_if(words: &mut [u64; WORDS], s: usize, j: usize, marked: bool, output: Output)
    requires { (s < sites_most) × (j < output_count) }
    ensures { Stored words.old words.new
        (set_site (sites_of words.old) s
        (set_out (site_in words.old s) j (cond marked output (out_at (site_in words.old s) j)))) }
{
    if marked {
        store_output(words, s, j, output);
    }
}

pub(crate) fn store_marked(
    words: &mut [u64; WORDS],
    s: usize,
    marks: [bool; base::OUTPUTS],
    outputs: [Output; base::OUTPUTS],
)
    requires { s < sites_most }
    ensures { Stored words.old words.new
        (set_site (sites_of words.old) s
        (with_outputs (site_in words.old s) (spec.merged marks outputs (site_in words.old s).outputs))) }
{
    for (j, output) in outputs.iter().enumerate() {
        store_if(words, s, j, marks[j], *output);
    }
}

// The outputs that the rule of a net-input in this state changes, of those that it is connected to.
pub(crate) fn touched(phase: Phase, marks: [bool; base::OUTPUTS]) -> [bool; base::OUTPUTS]
    ensures { result ≡ spec.touched phase marks }
{
    match phase {
        Phase::Done(_, _) => marks,
        Phase::FinAbort(_, _) => [true, false, false, false, false, false],
        Phase::Free
        | Phase::Seek
        | Phase::Open(_)
        | Phase::Wait(_)
        | Phase::Last(_, _)
        | Phase::Abort(_) => [false; base::OUTPUTS],
    }
}

// Those that the router's answer takes.
pub(crate) fn opening(turn: Option<InputTurn>) -> [bool; base::OUTPUTS]
    ensures { result ≡ spec.opening turn }
{
    let Some(turn) = turn else {
        return [false; base::OUTPUTS];
    };
    match turn.input.phase {
        Phase::Open(_) => turn.input.outputs,
        _ => [false; base::OUTPUTS],
    }
}

// Those that the timeout looks at.
pub(crate) fn cutting(marks: [bool; base::OUTPUTS]) -> [bool; base::OUTPUTS]
    ensures { result ≡ spec.cutting marks }
{
    let mut all = marks;
    all[0] = true;
    all
}

// An output of which it is known whether it is in use.
fn glimpse(used: bool) -> Output
    ensures { result ≡ spec.glimpse used }
{
    Output {
        used,
        ..empty_output()
    }
}

// Whether the split output is in use; it is looked at in edition 3 alone.
fn is_split_used(edition: u8, words: &[u64; WORDS], s: usize) -> bool
    requires { s < sites_most }
    ensures { result ≡ (restricted edition && (out_at (site_in words.now s) split_port).used) }
{
    draws::is_restricted(edition) && is_used(words, s, base::SPLIT_PORT)
}

// The outputs as the router sees them. They are written out, since the last is asked otherwise than the others.
pub(crate) fn load_seen(edition: u8, words: &[u64; WORDS], s: usize) -> [Output; base::OUTPUTS]
    requires { s < sites_most }
    ensures { result ≡ spec.seen edition (site_in words.now s).outputs }
{
    [
        glimpse(is_used(words, s, 0)),
        glimpse(is_used(words, s, 1)),
        glimpse(is_used(words, s, 2)),
        glimpse(is_used(words, s, 3)),
        glimpse(is_used(words, s, 4)),
        glimpse(is_split_used(edition, words, s)),
    ]
}
