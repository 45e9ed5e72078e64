// The owed pairs of the state that words stand for, site by site.
ghost use Rattle.std.specs.Prelude.{◌≡◌};
ghost use Rattle.model.specs.Owing.{owed_pairs};
ghost use Rattle.layout.specs.Words.{sites_of};
ghost use Rattle.words.specs.Owing.{owed_words, told_owed};

use crate::form::is_canonical;
use crate::load::load_site;
use base::Refusal;
use layout::WORDS;

pub(crate) fn owed_in_place(words: &[u64; WORDS]) -> usize
    ensures { result ≡ owed_pairs (sites_of words.now) }
{
    let mut n = 0;
    for s in 0..base::SITES {
        n += machine::site_pairs(s, load_site(words, s));
    }
    n
}

// The owed pairs of the state that any lent words stand for; 13 for words that are no state's.
pub fn owed(words: &[u64]) -> Result<usize, Refusal>
    ensures { told_owed result ≡ owed_words words.now }
{
    match words.as_array::<WORDS>() {
        Some(words) if is_canonical(words) => Ok(owed_in_place(words)),
        _ => Err(Refusal::State),
    }
}
