// Which words are a state's, and the empty state written.
ghost use Rattle.std.specs.Prelude.{◌≡◌, ◌<◌, eqb, length};
ghost use Rattle.base.specs.Sizes.{sites_most};
ghost use Rattle.base.specs.All.{all};
ghost use Rattle.layout.specs.Layout.{site_places, word_count};
ghost use Rattle.layout.specs.Words as spec;

use crate::load::{fields_at, set_at};
use crate::pack::{
    in_entry_from, in_entry_word, input_from, input_word, out_entry_from, out_entry_word,
    output_from, output_word,
};
use layout::{
    ARRIVED_FROM, COUNTER_AT, COUNTS_FROM, LEAVING_FROM, OUTPUTS_FROM, SITE_PLACES, WORDS,
};

// The packed word of the place k that a set and a packed word stand for.
fn repacked(k: usize, set: u64, w: u64) -> u64
    ensures { result ≡ spec.repacked k set w }
{
    if k < OUTPUTS_FROM {
        input_word(input_from(set, w))
    } else if k < LEAVING_FROM {
        output_word(output_from(set, w))
    } else if k < ARRIVED_FROM {
        out_entry_word(out_entry_from(set, w))
    } else if k < COUNTS_FROM {
        in_entry_word(in_entry_from(set, w))
    } else {
        0
    }
}

// Whether packing what place k of site s stands for gives its words again. No field set is the usual case.
fn place_same(words: &[u64; WORDS], s: usize, k: usize) -> bool
    requires { (s < sites_most) × (k < site_places) }
    ensures { result ≡ spec.place_same words.now s k }
{
    let w = fields_at(words, s, k);
    w == 0 || w == repacked(k, set_at(words, s, k), w)
}

fn site_same(words: &[u64; WORDS], s: usize) -> bool
    requires { s < sites_most }
    ensures { result ≡ all (spec.place_same words.now s) site_places }
{
    (0..SITE_PLACES).all(|k| place_same(words, s, k))
}

pub(crate) fn is_canonical(words: &[u64; WORDS]) -> bool
    ensures { result ≡ spec.canonical words.now }
{
    (0..base::SITES).all(|s| site_same(words, s)) && words[COUNTER_AT] < 256
}

// The empty state into lent words; words of another number stay as they are, and the answer is false.
pub fn write_empty(words: &mut [u64]) -> bool
    ensures { (result ≡ eqb (length words.old) word_count) × (words.new ≡ spec.emptied words.old) }
{
    let sized = words.len() == WORDS;
    if sized {
        words.fill(0);
    }
    sized
}
