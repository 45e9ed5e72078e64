// Draws: the next value of the 32-bit xorshift, and the event that a value names. Both take anything.
// specs/Draws.antt has the definitions.
#![tactic(auto)]

ghost use Rattle.std.specs.Prelude.{◌≡◌, ◌*◌, ◌/◌, ◌%◌, ◌≤◌};
ghost use Rattle.base.specs.Sizes.{sites_most, code_count, split_code_count};
ghost use Rattle.draws.specs.Draws as spec;

use base::Refusal;

// 65536 / 13 and 65536 / 15, rounded up.
const THIRTEENTH: usize = 5042;

const FIFTEENTH: usize = 4370;

// The event RUN (site, code) that a value names.
#[derive(Clone, Copy)]
pub struct Event {
    pub site: usize,
    pub code: usize,
}

// The value after x: shifts left 13, right 17, left 5.
pub fn draw(x: u32) -> u32
    ensures { result ≡ spec.drawn x }
{
    let a = x ^ (x << 13);
    let b = a ^ (a >> 17);
    b ^ (b << 5)
}

// Whether an edition is 3, the restricted one.
pub fn is_restricted(edition: u8) -> bool
    ensures { result ≡ spec.restricted edition }
{
    edition == 3
}

// The codes of RUN in an edition: fifteen in edition 3, else thirteen.
pub fn codes_in(edition: u8) -> usize
    ensures { result ≡ spec.codes_in edition }
{
    if is_restricted(edition) {
        base::SPLIT_CODES
    } else {
        base::CODES
    }
}

// The event that a value names among so many sites and codes. The whole division by the codes is a product with their share of
// 65536: a division by a number that is known only when the program runs would be the dearest part of a draw.
fn named(value: u32, sites: usize, codes: usize, share: usize) -> Event
    requires { (1 ≤ sites) × (sites ≤ sites_most) × (code_count ≤ codes) × (codes ≤ split_code_count) × spec.Shares codes share }
    ensures { result ≡ record { site = value % (codes * sites) / codes; code = value % (codes * sites) % codes } }
{
    let m = (value as usize) % (codes * sites);
    let site = m * share / 65536;
    Event {
        site,
        code: m - codes * site,
    }
}

// The event that a value names in a network of so many sites by an edition's codes; refusal 3 where no network has so many.
pub fn event_of(value: u32, sites: usize, edition: u8) -> Result<Event, Refusal>
    ensures { spec.told result ≡ spec.event_of edition sites value }
{
    if (1 <= sites) & (sites <= base::SITES) {
        if is_restricted(edition) {
            return Ok(named(value, sites, base::SPLIT_CODES, FIFTEENTH));
        }
        return Ok(named(value, sites, base::CODES, THIRTEENTH));
    }
    Err(Refusal::Sizes)
}
