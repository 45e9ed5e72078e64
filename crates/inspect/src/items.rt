// Words for the first channel, route or send at fault: refusals 6 to 8.
use crate::held::{Held, Version};
use std::fmt::{Formatter, Result, Write};

// 6: channel m, which leads to an input that a channel before it feeds, or to no input of the network.
pub fn write_channel<W: Write>(f: &mut Formatter<W>, held: Held<'_>, m: usize) -> Result {
    write_port(f, held, m)?;
    let channel = held.channel(m);
    let sites = usize::from(held.sites());
    let end = base::PORTS * sites;
    if usize::from(channel) < end {
        let other = first_to(held, channel);
        let site = other / base::PORTS;
        let port = other % base::PORTS + 1;
        write!(
            f,
            "leads to input {channel}, as site {site}, port {port} does"
        )
    } else if sites < 2 {
        write!(f, "is {channel}, and 1 site has inputs 0 to 3")
    } else {
        write!(
            f,
            "is {channel}, and {sites} sites have inputs 0 to {}",
            end - 1
        )
    }
}

// Channel m: its site, its port, and where it stands.
fn write_port<W: Write>(f: &mut Formatter<W>, held: Held<'_>, m: usize) -> Result {
    let site = m / base::PORTS;
    let port = m % base::PORTS + 1;
    let place = held.channel_place(m);
    write!(f, "the channel of site {site}, port {port}, ")?;
    match held.version() {
        Version::First => write!(f, "byte {place}, "),
        Version::Second => write!(f, "bytes {place} and {}, ", place + 1),
    }
}

// The first channel to this input.
fn first_to(held: Held<'_>, channel: u16) -> usize {
    (0..base::PORTS * base::SITES)
        .find(|m| held.channel(*m) == channel)
        .unwrap_or(0)
}

// 7: route k. One from a site to itself is not 0000.
pub fn write_route<W: Write>(f: &mut Formatter<W>, held: Held<'_>, k: usize) -> Result {
    let sites = usize::from(held.sites());
    if sites == 0 {
        return Ok(());
    }
    let from = k / sites;
    let to = k % sites;
    let first = held.route_place(k);
    let last = first + 1;
    let route = held.word_at(first);
    if from == to {
        return write!(
            f,
            "the route from site {from} to itself, bytes {first} and {last}, is {route:04x}, not 0000"
        );
    }
    write!(
        f,
        "the route from site {from} to site {to}, bytes {first} and {last}, "
    )?;
    write_list(f, held, from, route)
}

// A list that is none, by the first of these that holds: it lists nothing; a digit is no port; a port is there twice; a
// port has no channel; a 0 stands left of a port.
fn write_list<W: Write>(f: &mut Formatter<W>, held: Held<'_>, from: usize, route: u16) -> Result {
    let digits = [route / 4096, route / 256 % 16, route / 16 % 16, route % 16].map(usize::from);
    if route == 0 {
        f.write_str("lists no port")
    } else if let Some(stray) = digits.iter().find(|digit| base::PORTS < **digit) {
        write!(f, "names port {stray}, and ports are 1 to 4")
    } else if let Some(again) = first_again(digits) {
        write!(f, "names port {again} twice")
    } else if let Some(loose) = digits.iter().find(|digit| is_loose(held, from, **digit)) {
        write!(f, "names port {loose}, which has no channel")
    } else {
        write!(f, "is {route:04x}, with a 0 left of a port")
    }
}

// The first port that is named before.
fn first_again(digits: [usize; 4]) -> Option<usize> {
    for (i, digit) in digits.iter().enumerate() {
        if *digit != 0 && digits[..i].contains(digit) {
            return Some(*digit);
        }
    }
    None
}

// Whether a digit is a port without a channel.
fn is_loose(held: Held<'_>, from: usize, digit: usize) -> bool {
    match digit {
        0 => false,
        port => held.channel(base::PORTS * (from % base::SITES) + (port - 1) % 4)
            == base::NO_CHANNEL,
    }
}

// 8: send m, by the first of these that holds: its site is none; its set is empty; its set has a site that is none; its
// draw number is above the draws; it is below that of the send before.
pub fn write_send<W: Write>(f: &mut Formatter<W>, held: Held<'_>, m: usize) -> Result {
    let sites = held.sites();
    let place = held.send_place(m) + 2;
    let site = held.byte_at(place);
    if sites <= site {
        write!(f, "send {m}, byte {place}, is from site {site}")?;
        return write_sites(f, sites);
    }
    let set = held.set_of(m);
    if set == 0 {
        write_set_place(f, held, m)?;
        return f.write_str("has an empty set");
    }
    match first_beyond(set, sites) {
        Some(beyond) => {
            write_set_place(f, held, m)?;
            write!(f, "goes to site {beyond}")?;
            write_sites(f, sites)
        }
        None => write_draw(f, held, m),
    }
}

// Send m, and where its set stands.
fn write_set_place<W: Write>(f: &mut Formatter<W>, held: Held<'_>, m: usize) -> Result {
    let place = held.send_place(m) + 3;
    match held.version() {
        Version::First => write!(f, "send {m}, bytes {place} and {}, ", place + 1),
        Version::Second => write!(f, "send {m}, bytes {place} to {}, ", place + 7),
    }
}

// The sites that there are.
fn write_sites<W: Write>(f: &mut Formatter<W>, sites: u8) -> Result {
    match sites {
        0 | 1 => f.write_str(", and there is site 0 alone"),
        _ => write!(f, ", and there are sites 0 to {}", sites - 1),
    }
}

// The first site of the set, of those that a network has at most, that is none.
fn first_beyond(set: u64, sites: u8) -> Option<usize> {
    (usize::from(sites)..base::SITES).find(|site| set >> *site & 1 == 1)
}

// The draw number of send m.
fn write_draw<W: Write>(f: &mut Formatter<W>, held: Held<'_>, m: usize) -> Result {
    let place = held.send_place(m);
    let draw = held.word_at(place);
    let draws = held.draws();
    write!(
        f,
        "send {m}, bytes {place} and {}, has draw number {draw}, ",
        place + 1
    )?;
    if draw <= draws {
        let last = held.word_at(held.send_place(base::one_less(m)));
        write!(f, "below the {last} of the send before it")
    } else if draws == 1 {
        f.write_str("and there is 1 draw")
    } else {
        write!(f, "and there are {draws} draws")
    }
}
