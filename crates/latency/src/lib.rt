// Uncontended latency, after source document 001, section 2: the cycles that a packet takes which meets no other, to one target,
// and on average to n targets by multi-unicast, resumable and restricted branch multicast. They are doubled, and so whole. It
// takes anything. specs/Latency.antt has the formulas.
#![tactic(auto)]

ghost use Rattle.std.specs.Prelude.{◌≡◌, ◌≤◌, Ok};
ghost use Rattle.latency.specs.Latency as spec;
ghost use Rattle.latency.specs.Latency.{argument_most};

use base::Refusal;

// The largest argument; the least is 1.
pub const ARGUMENT: u64 = 65535;

// The latency of a unicast packet and the averages of the three schemes, doubled.
#[derive(Clone, Copy)]
pub struct Latencies {
    pub unicast: u64,
    pub multi: u64,
    pub resumable: u64,
    pub restricted: u64,
}

// The four for targets of t bits, l bits of data, a distance of d channels, n targets and channels of w bits.
pub fn uncontended(t: u64, l: u64, d: u64, n: u64, w: u64) -> Result<Latencies, Refusal>
    ensures { spec.told result ≡ spec.latencies t l d n w }
{
    if !are_arguments(t, l, d, n, w) {
        return Err(Refusal::Argument);
    }
    Ok(by_cycles(ceiling(t, w), ceiling(l, w), d, n))
}

fn are_arguments(t: u64, l: u64, d: u64, n: u64, w: u64) -> bool
    ensures { result ≡ spec.arguments_ok t l d n w }
{
    is_argument(t) & is_argument(l) & is_argument(d) & is_argument(n) & is_argument(w)
}

fn is_argument(x: u64) -> bool
    ensures { result ≡ spec.argument_ok x }
{
    (1 <= x) & (x <= ARGUMENT)
}

// The cycles that x bits take on a channel of w bits.
fn ceiling(x: u64, w: u64) -> u64
    requires { (1 ≤ w) × (x ≤ argument_most) }
    ensures { result ≡ spec.ceiling x w }
{
    x.div_ceil(w)
}

// The four, from the cycles a of a target and b of the data.
fn by_cycles(a: u64, b: u64, d: u64, n: u64) -> Latencies
    requires { (a ≤ argument_most) × (b ≤ argument_most) × (d ≤ argument_most) × (1 ≤ n) × (n ≤ argument_most) }
    ensures { spec.told (Ok result) ≡ spec.by_cycles a b d n }
{
    let unicast = 2 * a * d + 2 * b;
    let others = n - 1;
    let targets = others * a;
    Latencies {
        unicast,
        multi: unicast + targets + others * b,
        resumable: unicast + 2 * others * a,
        restricted: unicast + targets + targets * d,
    }
}
