// Bytes put one behind the other into a lent room: each function takes the place to put at and answers the place behind
// what it put. The caller has seen to the room.
// (Places are handed on: the clauses settle each byte of the room, which is the caller's.)
ghost use Rattle.std.specs.Prelude.{◌+◌, ◌*◌, ◌≤◌, ◌<◌, ◌++◌, length};
ghost use Rattle.lines.specs.Text.{decimal, counts_line, service_line, line_at, answer_most, service_most};
ghost use Rattle.report.specs.Put.{Put};

use types::Counts;

pub(crate) fn put_all(room: &mut [u8], at: usize, bytes: &[u8]) -> usize
    requires { at + length bytes.now ≤ length room.old }
    ensures { Put room.old at bytes.now result room.new }
{
    for (i, byte) in bytes.iter().enumerate() {
        room[at + i] = *byte;
    }
    at + bytes.len()
}

// The decimal digits of n.
fn put_number(room: &mut [u8], at: usize, n: usize) -> usize
    requires { at + length (decimal n) ≤ length room.old }
    ensures { Put room.old at (decimal n) result room.new }
{
    let mut digits = [0u8; 20];
    let k = io::decimal(n as u64, &mut digits);
    put_all(room, at, &digits[..k])
}

// A number and the word behind it.
pub(crate) fn put_field(room: &mut [u8], at: usize, n: usize, word: &[u8]) -> usize
    requires { at + length (decimal n) + length word.now ≤ length room.old }
    ensures { Put room.old at (decimal n ++ word.now) result room.new }
{
    let end = put_number(room, at, n);
    put_all(room, end, word)
}

// The line of counts, at the front.
pub(crate) fn put_counts(room: &mut [u8], counts: Counts) -> usize
    requires { answer_most ≤ length room.old }
    ensures { Put room.old 0 (counts_line counts) result room.new }
{
    let accepted = put_all(room, 0, b"accepted ");
    let pairs = put_field(room, accepted, counts.accepted, b" pairs ");
    let serviced = put_field(room, pairs, counts.pairs, b" serviced ");
    let owed = put_field(room, serviced, counts.serviced, b" owed ");
    put_field(room, owed, counts.owed, b"\n")
}

// The line of a service.
fn put_service(room: &mut [u8], at: usize, draw: usize, packet: usize, site: usize) -> usize
    requires { (draw < 65536) × (packet < 256) × (site < 256) × (at + service_most ≤ length room.old) }
    ensures put { Put room.old at (service_line draw packet site) result room.new }
    ensures upper_bound { result ≤ at + service_most }
{
    let second = put_field(room, at, draw, b" ");
    let third = put_field(room, second, packet, b" ");
    put_field(room, third, site, b"\n")
}

// The line of the book's service k.
pub(crate) fn put_entry(room: &mut [u8], at: usize, book: &[u8], k: usize) -> usize
    requires { (4 * k + 4 ≤ length book.now) × (at + service_most ≤ length room.old) }
    ensures put { Put room.old at (line_at book.now k) result room.new }
    ensures upper_bound { result ≤ at + service_most }
{
    let from = 4 * k;
    let draw = 256 * base::wide(book[from]) + base::wide(book[from + 1]);
    let packet = base::wide(book[from + 2]);
    let site = base::wide(book[from + 3]);
    put_service(room, at, draw, packet, site)
}
