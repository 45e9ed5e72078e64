// What `play`, `batch` and `rewrite` share: the bytes of an archive, read as far as they are seen, and the lines printed
// of a played archive. `answer_line`, `service_lines` and `add_..` compose the lines in lent bytes; their contracts settle
// each byte. What is read and written no contract can say: the functions that do it are proved safe and ending, and
// answer the error of the system's where it fails.
#![tactic(auto)]

mod adding;
mod text;

ghost use Rattle.std.specs.Prelude.{◌≡◌, OnErr, length, IfOk};
ghost use Rattle.io.specs.Counts.{IsPrefixLen as Front};
ghost use Rattle.base.specs.Answers.{at_front};
ghost use Rattle.lines.specs.Text.{answer_line, lines_answer, lines_after};

pub use adding::{add_answer, add_bytes, add_name, add_number};
use lines::Lines;
use std::io::{Print, Read, Result};
use text::{put_all, put_counts, put_entry, put_field};
use types::Counts;

// Room for the book of every archive: 4 bytes a service, every send to every site.
pub const BOOK: usize = 4 * base::SENDS * base::SITES;
// Room for the line of every answer: four numbers of 20 digits, their words and the newline.
pub const ANSWER: usize = 113;
// Room for the line of every service: `65535 255 255` and its newline.
const SERVICE: usize = 14;

// ---- composing

// Puts `refused N`, or the counts of an archive that was not refused, and a newline at the front of the lent bytes.
// Answers how many they are.
// (A number and no Result, here and in `add_answer`: their theorems are of any number of a byte.)
pub fn answer_line(refusal: u8, counts: Counts, text: &mut [u8; ANSWER]) -> usize
    ensures { (result ≡ length (answer_line refusal counts))
        × (text.new ≡ at_front (answer_line refusal counts) text.old) }
{
    if refusal == 0 {
        return put_counts(text, counts);
    }
    let number = put_all(text, 0, b"refused ");
    put_field(text, number, base::wide(refusal), b"\n")
}

// Puts the services of a book, from its first on, each as a line `draw packet site`, at the front of the lent bytes: all,
// or as many as surely fit. Answers how many services and how many bytes they are.
pub fn service_lines(book: &[u8], text: &mut [u8]) -> Lines
    ensures { (result ≡ lines_answer book.now (length text.old))
        × (text.new ≡ lines_after book.now text.old) }
{
    let n = (book.len() / 4).min(text.len() / SERVICE);
    let mut at = 0usize;
    for k in 0..n {
        at = put_entry(text, at, book, k);
    }
    Lines {
        services: n,
        bytes: at,
    }
}

// ---- reading and writing

// Reads until the room is full or the input ends, and answers how many bytes stand at the front of the room. A read
// that fails makes the whole reading fail, with that read's own error: of the room only its length is known then. (A `while`:
// a read may bring less than it is asked for, so that no range says how often.)
pub fn read_seen(from: &mut impl Read, room: &mut [u8]) -> Result<usize>
    ensures ok { IfOk result (λ count. Front count room.new) }
    ensures err { OnErr result (length room.new ≡ length room.old) }
{
    let mut count = 0usize;
    while count < room.len() {
        let more = from.read(&mut room[count..])?;
        if more == 0 {
            break;
        }
        count += more;
    }
    Ok(count)
}

// Prints the lines of the first `count` services of a book, as far as the book has them, many in one write and no line
// in two. Stops at a write that fails.
// (No `for`: a turn prints as many services as surely fit, and `service_lines` answers how many these were.)
pub fn print_services(out: &impl Print, book: &[u8], count: usize) -> Result<()> {
    let n = count.min(book.len() / 4);
    let mut text = io::buffer();
    let mut k = 0usize;
    while k < n {
        let lines = service_lines(&book[4 * k..4 * n], &mut text);
        let bytes = lines.bytes;
        out.write_all(&text[..bytes])?;
        k += lines.services;
    }
    Ok(())
}

// Prints the line of an answer in one write. (A number, as `answer_line` takes it.)
pub fn print_line(out: &impl Print, refusal: u8, counts: Counts) -> Result<()> {
    let mut text = [0u8; ANSWER];
    let n = answer_line(refusal, counts, &mut text);
    out.write_all(&text[..n])
}

// Prints the line of a refusal.
pub fn print_refusal(out: &impl Print, refusal: u8) -> Result<()> {
    let counts = Counts {
        accepted: 0,
        pairs: 0,
        serviced: 0,
        owed: 0,
    };
    print_line(out, refusal, counts)
}
