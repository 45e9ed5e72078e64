// A line that grows in lent bytes: each function takes the place behind what stands there, adds as much as there is
// room for, and answers the place behind that. So a line is composed first and goes out by one write.
// (Places are handed on, as in text.rt: the clauses settle each byte of the room, which is the caller's.)
ghost use Rattle.std.specs.Prelude.{◌++◌};
ghost use Rattle.io.specs.Counts.{IsPrefixLen as Front};
ghost use Rattle.io.specs.Digits.{last_digits};
ghost use Rattle.lines.specs.Text.{ascii, decimal, answer_line};
ghost use Rattle.lines.specs.Add.{Added, shown, shown_byte};

use crate::text::put_all;
use crate::{ANSWER, answer_line};
use types::Counts;

// Adds bytes as they are.
pub fn add_bytes(text: &mut [u8], at: usize, bytes: &[u8]) -> usize
    ensures { Front result text.new
        × Added text.old at bytes.now result text.new }
{
    let from = at.min(text.len());
    let n = bytes.len().min(text.len() - from);
    put_all(text, from, &bytes[..n])
}

// Adds a number in decimal.
pub fn add_number(text: &mut [u8], at: usize, n: u64) -> usize
    ensures { Front result text.new
        × Added text.old at (decimal n) result text.new }
{
    let mut digits = [0u8; 20];
    let k = io::decimal(n, &mut digits);
    add_bytes(text, at, &digits[..k])
}

// Adds the line of an answer, with its newline.
pub fn add_answer(text: &mut [u8], at: usize, refusal: u8, counts: Counts) -> usize
    ensures { Front result text.new
        × Added text.old at (answer_line refusal counts) result text.new }
{
    let mut line = [0u8; ANSWER];
    let n = answer_line(refusal, counts, &mut line);
    add_bytes(text, at, &line[..n])
}

// Adds a name, its control characters and backslashes escaped, so that it stays within its line.
pub fn add_name(text: &mut [u8], at: usize, name: &[u8]) -> usize
    ensures { Front result text.new
        × Added text.old at (shown name.now) result text.new }
{
    let mut to = at.min(text.len());
    for byte in name {
        to = add_shown(text, to, *byte);
    }
    to
}

// Adds a byte of a name.
fn add_shown(text: &mut [u8], at: usize, byte: u8) -> usize
    ensures { Front result text.new
        × Added text.old at (shown_byte byte) result text.new }
{
    if byte == b'\n' {
        return add_bytes(text, at, b"\\n");
    }
    if byte == b'\r' {
        return add_bytes(text, at, b"\\r");
    }
    if byte == b'\t' {
        return add_bytes(text, at, b"\\t");
    }
    if byte == b'\\' {
        return add_bytes(text, at, b"\\\\");
    }
    if (byte < 32) | (byte == 127) {
        return add_code(text, at, byte);
    }
    add_bytes(text, at, &[byte])
}

// Adds a byte as `\x` and two hexadecimal digits.
fn add_code(text: &mut [u8], at: usize, byte: u8) -> usize
    ensures { Front result text.new
        × Added text.old at (ascii "\\x" ++ last_digits 16 2 byte) result text.new }
{
    let behind = add_bytes(text, at, b"\\x");
    let mut digits = [0u8; 16];
    let k = io::hex(u64::from(byte), 2, &mut digits);
    add_bytes(text, behind, &digits[..k])
}
