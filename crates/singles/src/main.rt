// Replays single events: reads the cases of docs/TESTING.md ('Single event cases: the text form') from standard input,
// each with its own network and state, calls SEND or RUN, and writes `refusal answer packet site`, for a RUN that asks
// for them the outputs in the way too, and the state handed back. A narrow case is of version 1 and has 16 sites; a wide
// one says version and edition and has 64. `stdin` and `stdout` are the second model's, by its program `cases`.
#![tactic(auto)]

ghost use Rattle.std.specs.Prelude.{◌≤◌, length};

mod answer;
mod form;
mod numbers;
mod site;
mod text;

use answer::{Answer, Behind};
use form::{Call, Extent, Form, NUMBERS};
use std::array;
use std::fmt::Display;
use std::io::{Print, Read, Write};
use text::Text;
use types::{Network, Site, State};

// As many numbers as the longest list has, that of the routes.
const LONGEST: usize = base::SITES * base::SITES;
// Room for a line: the longest has a mark and the numbers of a site, of at most twenty digits each.
const ROOM: usize = 4096;

fn read_network(text: &mut Text<impl Read>, form: Form) -> Network {
    let (version, edition) = match form {
        Form::Narrow => (1, 1),
        Form::Wide => (text.number(), text.number()),
    };
    let sites = text.number() as usize;
    let tries = text.number();
    let depth = text.number() as usize;
    let mut numbers = [0u64; LONGEST];
    text.filled(&mut numbers);
    let channels = array::from_fn(|k| form.channel(numbers[k]));
    text.filled(&mut numbers);
    Network {
        sites,
        depth,
        tries: site::byte_of(tries),
        version: site::byte_of(version),
        edition: site::byte_of(edition),
        channels,
        routes: numbers.map(site::short_of),
    }
}

fn read_state(text: &mut Text<impl Read>, form: Form) -> State {
    let mut state = machine::empty_state();
    state.counter = site::byte_of(text.number());
    for place in &mut state.sites[..form.sites()] {
        let extent = Extent::from(text.number());
        let mut numbers = [0u64; NUMBERS];
        let given = &mut numbers[..extent.count()];
        text.numbers(given);
        if !matches!(extent, Extent::Nothing) {
            *place = site::site_of(given);
        }
    }
    state
}

// Puts a line at the front of the room, as far as the room goes. Answers how many bytes it has.
fn put_line(room: &mut [u8], line: impl Display + Drop) -> usize
    ensures { result ≤ length room.new }
{
    let size = room.len();
    let mut rest = &mut room[..];
    let _ = write!(rest, "{line}");
    size.saturating_sub(rest.len())
}

// Prints a line by one write, and then its end. What cannot be printed is lost.
fn print_line(out: &impl Print, line: impl Display + Drop) {
    let mut room = [0u8; ROOM];
    let end = put_line(&mut room, line);
    let _ = out.write_all(&room[..end]);
    let _ = out.write_all(b"\n");
}

fn print_site(out: &impl Print, site: &Site) {
    let numbers = numbers::of_site(site);
    let extent = Extent::of(&numbers);
    print_line(
        out,
        format_args!("{extent}{}", Behind(&numbers[..extent.count()])),
    );
}

fn print_state(out: &impl Print, state: &State, form: Form) {
    print_line(out, state.counter);
    for site in &state.sites[..form.sites()] {
        print_site(out, site);
    }
}

fn replay(out: &impl Print, text: &mut Text<impl Read>, form: Form) {
    let network = read_network(text, form);
    let state = read_state(text, form);
    let call = Call::from(text.number());
    let site = text.number() as usize;
    let last = text.number();
    match call {
        Call::Send => replay_send(out, network, state, site, last, form),
        Call::Run => replay_run(out, network, state, site, last as usize, form, false),
        Call::RunAsked => replay_run(out, network, state, site, last as usize, form, true),
    }
}

// RUN, and where it is asked for the outputs in the way. (The state that it leaves is printed where it lies: of one that is the
// value of a `match` the compiler keeps another copy.)
fn replay_run(
    out: &impl Print,
    network: Network,
    state: State,
    site: usize,
    code: usize,
    form: Form,
    is_asked: bool,
) {
    let ran = machine::run(network, state, site, code);
    let answer = Answer::from(ran.answer);
    if is_asked {
        print_line(out, format_args!("{answer} {}", ran.blocking));
    } else {
        print_line(out, answer);
    }
    print_state(out, &ran.state, form);
}

fn replay_send(
    out: &impl Print,
    network: Network,
    state: State,
    site: usize,
    set: u64,
    form: Form,
) {
    let sent = machine::send(network, state, site, set);
    print_line(out, Answer::from(sent.answer));
    print_state(out, &sent.state, form);
}

// So many cases, up to the end of the text.
fn replay_all(out: &impl Print, text: &mut Text<impl Read>, count: u64, form: Form) {
    for _ in 0..count {
        if text.is_over() {
            break;
        }
        replay(out, text, form);
    }
}

fn main(rt: HostRuntime) {
    let mut text = Text::new(rt.reader());
    let narrow = text.number();
    let wide = text.number();
    replay_all(&rt, &mut text, narrow, Form::Narrow);
    replay_all(&rt, &mut text, wide, Form::Wide);
}
