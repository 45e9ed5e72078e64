// The text of the four latencies, composed in lent bytes, so that it goes out by one write. specs/Text.antt has it.
// (Places are handed on, and no `Line` of `front` is filled: the clauses settle each byte by those of `report`.)
ghost use Rattle.std.specs.Prelude.{◌≡◌, ◌++◌, length};
ghost use Rattle.io.specs.Counts.{IsPrefixLen as Front};
ghost use Rattle.base.specs.Answers.{at_front};
ghost use Rattle.lines.specs.Add.{Added};
ghost use Rattle.lines.specs.Text.{decimal};
ghost use Rattle.latency.specs.Latency.{told};
ghost use Rattle.quote.specs.Text.{value_line, latencies_text, quote_text, quote_of, told_quoted};

use crate::number::NUMBERS;
use base::Refusal;
use latency::Latencies;
use types::Counts;

// Room for the text of every answer: four lines of at most twenty digits, `.5` and the newline.
pub const TEXT: usize = 92;

// Why there are no latencies, if there are none, and how many bytes of text stand at the front of the lent ones.
#[derive(Clone, Copy)]
pub struct Quoted {
    pub refused: Option<Refusal>,
    pub count: usize,
}

// Puts what is to be printed for t, L, D, n and W, in this order, at the front of the lent bytes.
pub fn quote(numbers: [u64; NUMBERS], doubled: bool, text: &mut [u8; TEXT]) -> Quoted
    ensures quoted { (told_quoted result ≡ quote_of doubled numbers)
        × (text.new ≡ at_front (quote_text doubled numbers) text.old) }
    ensures front { Front result.count text.new }
{
    let [t, l, d, n, w] = numbers;
    let found = latency::uncontended(t, l, d, n, w);
    Quoted {
        refused: found.err(),
        count: put_text(found, doubled, text),
    }
}

// The same of four values or a refusal. Answers how many bytes they are.
fn put_text(found: Result<Latencies, Refusal>, doubled: bool, text: &mut [u8; TEXT]) -> usize
    ensures { (result ≡ length (latencies_text doubled (told found)))
        × (text.new ≡ at_front (latencies_text doubled (told found)) text.old) }
{
    match found {
        Ok(four) => {
            let multi = add_value(text, 0, four.unicast, doubled);
            let resumable = add_value(text, multi, four.multi, doubled);
            let restricted = add_value(text, resumable, four.resumable, doubled);
            add_value(text, restricted, four.restricted, doubled)
        }
        Err(refusal) => report::add_answer(text, 0, u8::from(refusal), NO_COUNTS),
    }
}

// The line of a refusal shows no counts.
const NO_COUNTS: Counts = Counts {
    accepted: 0,
    pairs: 0,
    serviced: 0,
    owed: 0,
};

// Adds the line of a doubled value: its half, or itself.
fn add_value(text: &mut [u8], at: usize, value: u64, doubled: bool) -> usize
    ensures { Added text.old at (value_line doubled value) result text.new }
{
    if doubled {
        return add_line(text, at, value, b"\n");
    }
    if value % 2 == 0 {
        return add_line(text, at, value / 2, b"\n");
    }
    add_line(text, at, value / 2, b".5\n")
}

// Adds a number and what ends its line.
fn add_line(text: &mut [u8], at: usize, number: u64, end: &[u8]) -> usize
    ensures { Added text.old at (decimal number ++ end.now) result text.new }
{
    let behind = report::add_number(text, at, number);
    report::add_bytes(text, behind, end)
}
