// The reader: the bytes are judged where they lie (crate faults), and only those of an archive are made a run, once.
// Where a part stands in a version, and what a channel's bytes say, is asked of crate faults.
ghost use Rattle.std.specs.Prelude.{◌≡◌, ◌+◌, ◌*◌, ◌≤◌, ◌<◌, length};
ghost use Rattle.base.specs.Sizes.{sites_most, port_count, sends_most};
ghost use Rattle.faults.specs.Head.{Head};
ghost use Rattle.format.specs.Format.{quad, channel_place, sends_place, set_width, send_width, set_in, send_of};
ghost use Rattle.format.specs.Format.{channels_of, routes_of, sends_of, network_of, run_of};
ghost use Rattle.base.specs.Refusals.{refusal_of};
ghost use Rattle.format.specs.Refusals.{read_refusal, decode, told_run};
ghost use Rattle.model.specs.Runs.{no_sends};

use base::Refusal;
use types::{Network, Run, StoredSend};

// (The parts are read by `for`: the archive holds the first n places of a room, and the rest stays as it begins.)
// Behind the last channel there are routes, so that a second byte is there in version 1 too.
fn read_channels(b: &[u8], version: u8, n: usize) -> [u16; base::PORTS * base::SITES]
    requires { (n ≤ port_count * sites_most) × (channel_place version n < length b.now) }
    ensures { result ≡ channels_of version b.now n }
{
    let mut channels = [0u16; base::PORTS * base::SITES];
    for c in 0..n {
        let p = faults::channel_place(version, c as u8);
        channels[c] = faults::channel_of(version, b[p], b[p + 1]);
    }
    channels
}

fn read_routes(b: &[u8], p: usize, n: usize) -> [u16; base::SITES * base::SITES]
    requires { (n ≤ sites_most * sites_most) × (p + 2 * n ≤ length b.now) }
    ensures { result ≡ routes_of b.now p n }
{
    let mut routes = [0u16; base::SITES * base::SITES];
    for k in 0..n {
        let at = p + 2 * k;
        routes[k] = base::word(b[at], b[at + 1]);
    }
    routes
}

// The four bytes from place p on.
pub(crate) fn quad_at(b: &[u8], p: usize) -> u32
    requires { p + 4 ≤ length b.now }
    ensures { result ≡ quad b.now p }
{
    let at = p + 2;
    base::quad(base::word(b[p], b[p + 1]), base::word(b[at], b[at + 1]))
}

// The set from place p on.
fn set_at(b: &[u8], version: u8, p: usize) -> u64
    requires { p + set_width version ≤ length b.now }
    ensures { result ≡ set_in version b.now p }
{
    if version == 1 {
        return u64::from(base::word(b[p], b[p + 1]));
    }
    base::oct(quad_at(b, p), quad_at(b, p + 4))
}

pub(crate) fn send_at(b: &[u8], version: u8, p: usize) -> StoredSend
    requires { p + send_width version ≤ length b.now }
    ensures { result ≡ send_of version b.now p }
{
    StoredSend {
        set: set_at(b, version, p + 3),
        draw: base::word(b[p], b[p + 1]),
        site: b[p + 2],
    }
}

// 255 empty sends, whatever k is. The one that is repeated is read from a place that the compiler does not know: it is
// then copied as 16 bytes at once, where three fields would be stored (docs/PERFORMANCE.md).
fn no_sends(k: usize) -> [StoredSend; base::SENDS]
    ensures { result ≡ no_sends }
{
    let none = StoredSend {
        set: 0,
        draw: 0,
        site: 0,
    };
    let pair = [none, none];
    let either = pair[k % 2];
    [either; base::SENDS]
}

fn read_sends(b: &[u8], version: u8, sites: u8, n: usize) -> [StoredSend; base::SENDS]
    requires { (n ≤ sends_most) × (sends_place version sites + send_width version * n ≤ length b.now) }
    ensures { result ≡ sends_of version b.now (sends_place version sites) n }
{
    let mut sends = no_sends(n);
    for k in 0..n {
        sends[k] = send_at(b, version, faults::send_place(version, sites, k as u8));
    }
    sends
}

fn read_network(b: &[u8]) -> Network
    requires { Head b.now }
    ensures { result ≡ network_of b.now }
{
    let version = b[2];
    let edition = faults::edition_of(version, b[3]);
    let p = faults::fields_place(version);
    let first = b[p];
    let tries = b[p + 1];
    let depth = base::wide(b[p + 2]);
    let sites = base::wide(first);
    let channels = read_channels(b, version, base::PORTS * sites);
    let routes = read_routes(b, faults::routes_place(version, first), sites * sites);
    Network {
        sites,
        depth,
        tries,
        version,
        edition,
        channels,
        routes,
    }
}

fn read_run(b: &[u8]) -> Run
    requires { Head b.now }
    ensures { result ≡ run_of b.now }
{
    let network = read_network(b);
    let version = b[2];
    let p = faults::fields_place(version);
    let seed = quad_at(b, p + 3);
    let draws = base::word(b[p + 7], b[p + 8]);
    let count = base::wide(b[p + 9]);
    let sends = read_sends(b, version, b[p], count);
    Run {
        network,
        seed,
        draws,
        count,
        sends,
    }
}

// The run that the bytes stand for, with room beyond S sites and N sends zero; or the refusal, 1 to 8 or 17.
pub fn read(bytes: &[u8]) -> Result<Run, Refusal>
    ensures { told_run result ≡ decode bytes.now }
{
    check(bytes)?;
    Ok(read_run(bytes))
}

// The reader's refusal alone.
pub fn check(bytes: &[u8]) -> Result<(), Refusal>
    ensures { refusal_of result ≡ read_refusal bytes.now }
{
    match faults::find(bytes) {
        Some(fault) => Err(fault.refusal),
        None => Ok(()),
    }
}
