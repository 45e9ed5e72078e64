// Moves an archive to the other version, part by part out of the lent bytes: no run is made. Each part is read as the
// reader reads it and put as the writer puts it; where it stands in a version is asked of crate faults.
// format/specs/Moves.antt says what a move answers and writes.
ghost use Rattle.std.specs.Prelude.{◌≡◌, true, ◌&&◌, ◌+◌, ◌*◌, ◌≤◌, ◌<◌, eqb, leb, length};
ghost use Rattle.base.specs.Sizes.{sites_most, first_sites, port_count, sends_most};
ghost use Rattle.base.specs.Put.{put};
ghost use Rattle.format.specs.Format.{word, in_version, word_bytes, head_bytes, channel_part, channel_bytes, route_bytes};
ghost use Rattle.format.specs.Format.{send_bytes, sends_bytes, channel_in, channels_of, routes_of, send_of, sends_of};
ghost use Rattle.format.specs.Format.{head_length, channel_place, channel_width, sends_place, send_width, length_of};
ghost use Rattle.format.specs.Moves.{run_under, file_under, file_refusal, go_refusal, move_answer, moved};
ghost use Rattle.base.specs.Refusals.{number, refusal_of};
ghost use Rattle.format.specs.Refusals.{told_length};
ghost use Rattle.archive.specs.Code.{Narrow, AllNarrow, Movable, fields_in};

use crate::reader::{check, quad_at, send_at};
use crate::writer::{put_channel, put_fields, put_send, put_start, put_word};
use base::Refusal;

// 1.
fn is_length(refusal: Refusal) -> bool
    ensures { result ≡ eqb (number refusal) 1 }
{
    matches!(refusal, Refusal::Length)
}

fn is_refused_for_length(judged: Result<(), Refusal>) -> bool
    ensures { result ≡ eqb (refusal_of judged) 1 }
{
    match judged {
        Ok(()) => false,
        Err(refusal) => is_length(refusal),
    }
}

// 1, 2 where the version is another than `from`, 17, 3 to 8.
fn file_refusal(b: &[u8], from: u8) -> Result<(), Refusal>
    ensures { refusal_of result ≡ file_refusal from b.now }
{
    let judged = check(b);
    if is_refused_for_length(judged) {
        return judged;
    }
    if b[2] != from {
        return Err(Refusal::Version);
    }
    judged
}

// Whether a run with so many sites, of this edition, can be stored in version `to`.
fn goes_into(to: u8, sites: u8, edition: u8) -> bool
    ensures { result ≡ in_version to (leb sites first_sites && eqb edition 1) true }
{
    if to == 1 {
        return (base::wide(sites) <= base::FIRST_SITES) & (edition == 1);
    }
    true
}

// 1 to 8 and 17, then 15 where the run does not go into version `to`.
fn go_refusal(b: &[u8], from: u8, to: u8) -> Result<(), Refusal>
    ensures { refusal_of result ≡ go_refusal from to b.now }
{
    file_refusal(b, from)?;
    let p = faults::fields_place(from);
    if !goes_into(to, b[p], faults::edition_of(from, b[3])) {
        return Err(Refusal::Back);
    }
    Ok(())
}

// Channel k. Behind the last channel there are routes, so that a second byte is there in version 1 too.
fn move_channel(b: &[u8], from: u8, out: &mut [u8], to: u8, k: usize)
    requires { (k < port_count * sites_most) × (channel_place from k + 1 < length b.now)
        × (channel_place to k + channel_width to ≤ length out.old) × Narrow to (channel_in from b.now (channel_place from k)) }
    ensures { out.new
        ≡ put out.old (channel_place to k) (channel_part to (channel_in from b.now (channel_place from k))) }
{
    let p = faults::channel_place(from, k as u8);
    let channel = faults::channel_of(from, b[p], b[p + 1]);
    put_channel(out, faults::channel_place(to, k as u8), to, channel);
}

fn move_channels(b: &[u8], from: u8, out: &mut [u8], to: u8, n: usize)
    requires { (n ≤ port_count * sites_most) × (channel_place from n < length b.now)
        × (channel_place to n ≤ length out.old) × AllNarrow to (channels_of from b.now n) n }
    ensures { out.new ≡ put out.old (head_length to) (channel_bytes to (channels_of from b.now n) n) }
{
    for k in 0..n {
        move_channel(b, from, out, to, k);
    }
}

// From place p of the one to place q of the other: a route, and n of them.
fn move_route(b: &[u8], p: usize, out: &mut [u8], q: usize)
    requires { (p + 2 ≤ length b.now) × (q + 2 ≤ length out.old) }
    ensures { out.new ≡ put out.old q (word_bytes (word b.now p)) }
{
    put_word(out, q, u64::from(base::word(b[p], b[p + 1])));
}

fn move_routes(b: &[u8], p: usize, out: &mut [u8], q: usize, n: usize)
    requires { (n ≤ sites_most * sites_most) × (p + 2 * n ≤ length b.now) × (q + 2 * n ≤ length out.old) }
    ensures { out.new ≡ put out.old q (route_bytes (routes_of b.now p n) n) }
{
    for k in 0..n {
        move_route(b, p + 2 * k, out, q + 2 * k);
    }
}

// Send k.
fn move_send(b: &[u8], from: u8, out: &mut [u8], to: u8, sites: u8, k: u8)
    requires { (sends_place from sites + send_width from * k + send_width from ≤ length b.now)
        × (sends_place to sites + send_width to * k + send_width to ≤ length out.old) }
    ensures { out.new
        ≡ put out.old (sends_place to sites + send_width to * k)
        (send_bytes to (send_of from b.now (sends_place from sites + send_width from * k))) }
{
    let send = send_at(b, from, faults::send_place(from, sites, k));
    put_send(out, faults::send_place(to, sites, k), to, send);
}

fn move_sends(b: &[u8], from: u8, out: &mut [u8], to: u8, sites: u8, n: usize)
    requires { (n ≤ sends_most) × (sends_place from sites + send_width from * n ≤ length b.now)
        × (sends_place to sites + send_width to * n ≤ length out.old) }
    ensures { out.new
        ≡ put out.old (sends_place to sites)
        (sends_bytes to (sends_of from b.now (sends_place from sites) n) n) }
{
    for k in 0..n {
        move_send(b, from, out, to, sites, k as u8);
    }
}

// S, T, D, the seed, the draws and N, from place p of the one to place q of the other.
fn move_fields(b: &[u8], p: usize, out: &mut [u8], q: usize)
    requires { (p + 10 ≤ length b.now) × (q + 10 ≤ length out.old) }
    ensures { out.new ≡ put out.old q (fields_in b.now p) }
{
    put_fields(
        out,
        q,
        base::wide(b[p]),
        b[p + 1],
        base::wide(b[p + 2]),
        quad_at(b, p + 3),
        base::word(b[p + 7], b[p + 8]),
        base::wide(b[p + 9]),
    );
}

// The head of a file of so many bytes.
fn move_head(b: &[u8], from: u8, out: &mut [u8], to: u8, size: usize)
    requires { Movable b.now from to × (size ≡ length_of (run_under to b.now)) × (head_length to ≤ length out.old) }
    ensures { out.new ≡ put out.old 0 (head_bytes (run_under to b.now)) }
{
    put_start(out, to, faults::edition_of(from, b[3]), size);
    move_fields(b, faults::fields_place(from), out, faults::fields_place(to));
}

// All parts, one after the other: a file of so many bytes.
fn move_parts(b: &[u8], from: u8, out: &mut [u8], to: u8, size: usize)
    requires { Movable b.now from to × (size ≡ length_of (run_under to b.now)) × (size ≤ length out.old) }
    ensures { out.new ≡ put out.old 0 (file_under to b.now) }
{
    let p = faults::fields_place(from);
    let first = b[p];
    let sites = base::wide(first);
    let count = base::wide(b[p + 9]);
    let routes = faults::routes_place(from, first);
    let place = faults::routes_place(to, first);
    move_head(b, from, out, to, size);
    move_channels(b, from, out, to, base::PORTS * sites);
    move_routes(b, routes, out, place, sites * sites);
    move_sends(b, from, out, to, first, count);
}

// From a version to another. Answers the length of the moved file.
fn moved_file(b: &[u8], from: u8, out: &mut [u8], to: u8) -> Result<usize, Refusal>
    ensures { (told_length result ≡ move_answer from to b.now (length out.old))
        × (out.new ≡ moved from to b.now out.old) }
{
    go_refusal(b, from, to)?;
    let p = faults::fields_place(from);
    let size = faults::size_of(to, b[p], b[p + 9]);
    if out.len() < size {
        return Err(Refusal::Room);
    }
    move_parts(b, from, out, to, size);
    Ok(size)
}

// Moves an archive of version 1 over to version 2, to the front of the room, and answers how many bytes that are; or nothing
// where it answers a refusal: 1, 2 where the version is not 1, 3 to 8, or 14 where the room is below the moved file's length.
pub fn move_over(bytes: &[u8], out: &mut [u8]) -> Result<usize, Refusal>
    ensures { (told_length result ≡ move_answer 1 2 bytes.now (length out.old))
        × (out.new ≡ moved 1 2 bytes.now out.old) }
{
    moved_file(bytes, 1, out, 2)
}

// Moves an archive of version 2 back to version 1 in the same way: 1, 2 where the version is not 2, 17, 3 to 8, 15 where
// it has more than 16 sites or an edition other than 1, or 14.
pub fn move_back(bytes: &[u8], out: &mut [u8]) -> Result<usize, Refusal>
    ensures { (told_length result ≡ move_answer 2 1 bytes.now (length out.old))
        × (out.new ≡ moved 2 1 bytes.now out.old) }
{
    moved_file(bytes, 2, out, 1)
}
