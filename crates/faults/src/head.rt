// The head of an archive: the refusals 1, 2, 17, 3, 4 and 5.
ghost use Rattle.std.specs.Prelude.{◌≡◌, ◌+◌, ◌≤◌, ◌<◌, length};
ghost use Rattle.base.specs.Refusals.{refusal_of};
ghost use Rattle.model.specs.Network.{sizes_ok};
ghost use Rattle.format.specs.Format.{word, quad, version_of, network_of};
ghost use Rattle.format.specs.Refusals.{least_length, size_ok, fields_then, head_then};

use crate::places::{edition_of, fields_place, size_of};
use base::Refusal;

// The two bytes from place i on.
pub(crate) fn word_at(b: &[u8], i: usize) -> u16
    requires { i + 1 < length b.now }
    ensures { result ≡ word b.now i }
{
    base::word(b[i], b[i + 1])
}

// The four bytes from place i on.
pub(crate) fn quad_at(b: &[u8], i: usize) -> u32
    requires { i + 3 < length b.now }
    ensures { result ≡ quad b.now i }
{
    base::quad(word_at(b, i), word_at(b, i + 2))
}

// S, T and D, within their limits.
fn has_sizes(b: &[u8], version: u8) -> bool
    requires { (least_length ≤ length b.now) × (version ≡ version_of b.now) }
    ensures { result ≡ sizes_ok (network_of b.now) }
{
    let p = fields_place(version);
    let sites = base::wide(b[p]);
    let depth = base::wide(b[p + 2]);
    checks::sizes_ok(version, sites, b[p + 1], depth)
}

// As many bytes as S and N make. Thirteen bytes of version 2 have no N.
fn has_length(b: &[u8], version: u8) -> bool
    requires { (least_length ≤ length b.now) × (version ≡ version_of b.now) }
    ensures { result ≡ size_ok b.now }
{
    let p = fields_place(version);
    if b.len() <= p + 9 {
        return false;
    }
    b.len() == size_of(version, b[p], b[p + 9])
}

// 3, 4 or 5: the fields behind version and edition.
fn fields_refusal(b: &[u8], version: u8) -> Result<(), Refusal>
    requires { (least_length ≤ length b.now) × (version ≡ version_of b.now) }
    ensures { refusal_of result ≡ fields_then b.now 0 }
{
    if !has_sizes(b, version) {
        return Err(Refusal::Sizes);
    }
    if quad_at(b, fields_place(version) + 3) == 0 {
        return Err(Refusal::Seed);
    }
    if !has_length(b, version) {
        return Err(Refusal::Count);
    }
    Ok(())
}

// 1, 2, 17, 3, 4 or 5.
pub(crate) fn head_refusal(b: &[u8]) -> Result<(), Refusal>
    ensures { refusal_of result ≡ head_then b.now 0 }
{
    if b.len() < 13 {
        return Err(Refusal::Length);
    }
    if base::wider(word_at(b, 0)) != b.len() {
        return Err(Refusal::Length);
    }
    let version = b[2];
    checks::kind_refusal(version, edition_of(version, b[3]))?;
    fields_refusal(b, version)
}
