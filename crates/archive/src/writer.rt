// The writer: the run's own refusals, the room, then the parts one after the other. Where a part stands in a version is
// asked of crate faults.
ghost use Rattle.std.specs.Prelude.{◌≡◌, [], ◌∷◌, ◌+◌, ◌*◌, ◌≤◌, ◌<◌, length};
ghost use Rattle.base.specs.Sizes.{sites_most, port_count};
ghost use Rattle.base.specs.Put.{put};
ghost use Rattle.format.specs.Format.{word_bytes, quad_bytes, channel_part, set_part, start_with, fields_with, channel_bytes};
ghost use Rattle.format.specs.Format.{route_bytes, send_bytes};
ghost use Rattle.format.specs.Format.{sites_place, channel_width, set_width, send_width, head_length, channel_place};
ghost use Rattle.format.specs.Format.{sends_place};
ghost use Rattle.base.specs.Refusals.{number, refusal_of};
ghost use Rattle.format.specs.Refusals.{write_answer, written, told_length};
ghost use Rattle.archive.specs.Code.{Narrow, AllNarrow, Fit, put_front, early, front_refusal};

use base::Refusal;
use types::{Network, Run, StoredSend};

// 2, 17 or 3: what stands before the writer's 4 and 5.
fn is_early(refusal: Refusal) -> bool
    ensures { result ≡ early (number refusal) }
{
    matches!(
        refusal,
        Refusal::Version | Refusal::Edition | Refusal::Sizes
    )
}

fn is_refused_early(judged: Result<(), Refusal>) -> bool
    ensures { result ≡ early (refusal_of judged) }
{
    match judged {
        Ok(()) => false,
        Err(refusal) => is_early(refusal),
    }
}

// 2, 17 and 3 to 7: all but what the sends themselves are turned down for.
fn front_refusal(network: Network, seed: u32, count: usize) -> Result<(), Refusal>
    ensures { refusal_of result ≡ front_refusal network seed count }
{
    let judged = checks::network_refusal(network);
    if is_refused_early(judged) {
        return judged;
    }
    if seed == 0 {
        return Err(Refusal::Seed);
    }
    if base::SENDS < count {
        return Err(Refusal::Count);
    }
    judged
}

// A byte at place p; a number as two bytes from there on, and as four.
fn put_byte(out: &mut [u8], p: usize, x: u8)
    requires { p + 1 ≤ length out.old }
    ensures { out.new ≡ put out.old p (x ∷ []) }
{
    out[p] = x;
}

pub(crate) fn put_word(out: &mut [u8], p: usize, x: u64)
    requires { p + 2 ≤ length out.old }
    ensures { out.new ≡ put out.old p (word_bytes x) }
{
    out[p] = (x / 256 % 256) as u8;
    out[p + 1] = (x % 256) as u8;
}

fn put_quad(out: &mut [u8], p: usize, x: u64)
    requires { p + 4 ≤ length out.old }
    ensures { out.new ≡ put out.old p (quad_bytes x) }
{
    out[p] = (x / 16777216 % 256) as u8;
    out[p + 1] = (x / 65536 % 256) as u8;
    out[p + 2] = (x / 256 % 256) as u8;
    out[p + 3] = (x % 256) as u8;
}

// The length, the version and in version 2 the edition.
pub(crate) fn put_start(out: &mut [u8], version: u8, edition: u8, size: usize)
    requires { sites_place version ≤ length out.old }
    ensures { out.new ≡ put out.old 0 (start_with version edition size) }
{
    put_word(out, 0, size as u64);
    put_byte(out, 2, version);
    if version == 1 {
        return;
    }
    put_byte(out, 3, edition);
}

pub(crate) fn put_fields(
    out: &mut [u8],
    p: usize,
    sites: usize,
    tries: u8,
    depth: usize,
    seed: u32,
    draws: u16,
    count: usize,
)
    requires { (p + 10 ≤ length out.old) × (sites < 256) × (depth < 256) × (count < 256) }
    ensures { out.new ≡ put out.old p (fields_with sites tries depth seed draws count) }
{
    put_byte(out, p, sites as u8);
    put_byte(out, p + 1, tries);
    put_byte(out, p + 2, depth as u8);
    put_quad(out, p + 3, u64::from(seed));
    put_word(out, p + 7, u64::from(draws));
    put_byte(out, p + 9, count as u8);
}

// In version 1 the low byte: that of none, 65535, is 255.
pub(crate) fn put_channel(out: &mut [u8], p: usize, version: u8, channel: u16)
    requires { (p + channel_width version ≤ length out.old) × Narrow version channel }
    ensures { out.new ≡ put out.old p (channel_part version channel) }
{
    if version == 1 {
        out[p] = (channel % 256) as u8;
        return;
    }
    put_word(out, p, u64::from(channel));
}

// (The parts are put by `for`, as they are moved in mover.rt: the place of each in the archive goes by its number.)
fn put_channels(out: &mut [u8], version: u8, channels: [u16; base::PORTS * base::SITES], n: usize)
    requires { (n ≤ port_count * sites_most) × (channel_place version n ≤ length out.old) × AllNarrow version channels n }
    ensures { out.new ≡ put out.old (head_length version) (channel_bytes version channels n) }
{
    for k in 0..n {
        put_channel(
            out,
            faults::channel_place(version, k as u8),
            version,
            channels[k],
        );
    }
}

fn put_routes(out: &mut [u8], routes: [u16; base::SITES * base::SITES], p: usize, n: usize)
    requires { (n ≤ sites_most * sites_most) × (p + 2 * n ≤ length out.old) }
    ensures { out.new ≡ put out.old p (route_bytes routes n) }
{
    for k in 0..n {
        put_word(out, p + 2 * k, u64::from(routes[k]));
    }
}

fn put_set(out: &mut [u8], p: usize, version: u8, set: u64)
    requires { p + set_width version ≤ length out.old }
    ensures { out.new ≡ put out.old p (set_part version set) }
{
    if version == 1 {
        put_word(out, p, set);
        return;
    }
    put_quad(out, p, set / 4294967296);
    put_quad(out, p + 4, set);
}

pub(crate) fn put_send(out: &mut [u8], p: usize, version: u8, send: StoredSend)
    requires { p + send_width version ≤ length out.old }
    ensures { out.new ≡ put out.old p (send_bytes version send) }
{
    let draw = send.draw;
    put_word(out, p, u64::from(draw));
    put_byte(out, p + 2, send.site);
    put_set(out, p + 3, version, send.set);
}

// Head, channels and routes; an archive of so many bytes with so many sends.
fn put_front(network: Network, seed: u32, draws: u16, count: usize, size: usize, out: &mut [u8])
    requires { Fit network count × (sends_place network.version network.sites ≤ length out.old) }
    ensures { out.new ≡ put_front network seed draws count size out.old }
{
    let version = network.version;
    let edition = network.edition;
    let sites = network.sites;
    let depth = network.depth;
    let tries = network.tries;
    let channels = network.channels;
    let routes = network.routes;
    let square = sites * sites;
    put_start(out, version, edition, size);
    put_fields(
        out,
        faults::fields_place(version),
        sites,
        tries,
        depth,
        seed,
        draws,
        count,
    );
    put_channels(out, version, channels, base::PORTS * sites);
    put_routes(
        out,
        routes,
        faults::routes_place(version, sites as u8),
        square,
    );
}

// Writes the archive of a run at the front of `out`, and answers how many bytes that are; or nothing where it answers a
// refusal: 2, 17, 3 to 8, or 14 where the room is below the archive's length. The sends are tested and written where they
// stand: a function that goes through them has them copied to it first, all 255.
pub fn write(run: Run, out: &mut [u8]) -> Result<usize, Refusal>
    ensures { (told_length result ≡ write_answer run (length out.old)) × (out.new ≡ written run out.old) }
{
    let network = run.network;
    let version = network.version;
    let sites = network.sites;
    let draws = run.draws;
    let count = run.count;
    front_refusal(network, run.seed, count)?;
    let mut last: u16 = 0;
    for k in 0..count {
        let send = run.sends[k];
        if !checks::stored_ok(send.draw, send.site, send.set, sites, draws, last) {
            return Err(Refusal::Sends);
        }
        last = send.draw;
    }
    let size = faults::size_of(version, sites as u8, count as u8);
    if out.len() < size {
        return Err(Refusal::Room);
    }
    put_front(network, run.seed, draws, count, size, out);
    for m in 0..count {
        let place = faults::send_place(version, sites as u8, m as u8);
        put_send(out, place, version, run.sends[m]);
    }
    Ok(size)
}
