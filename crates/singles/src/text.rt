// Numbers out of a text that is read piece by piece. A number is its decimal digits and the one byte after them; where
// digits are missing it is 0, so that a short or damaged text is read too.
ghost use Rattle.std.specs.Prelude.{◌≤◌, length};

use std::io::Read;

// How much of the text is read at once.
const PIECE: usize = 4096;

// The bytes of a number at most: the digits of the largest of 64 bits and one byte more.
const LONGEST: u8 = 21;

// A text: the piece that is being read, the place of the next byte in it and how many bytes it has, and whether the
// text was at its end when a byte was asked for last.
#[derive(Drop)]
pub(crate) struct Text<R: Read> {
    input: R,
    piece: [u8; PIECE],
    at: usize,
    end: usize,
    is_over: bool,
    ghost within: { end ≤ length piece },
}

// The number that a byte stands for, if it is a digit.
fn digit_of(byte: u8) -> Option<u8> {
    match byte {
        b'0'..=b'9' => Some(byte - b'0'),
        _ => None,
    }
}

impl<R: Read> Text<R> {
    pub(crate) fn new(input: R) -> Self {
        Text {
            input,
            piece: [0; PIECE],
            at: 0,
            end: 0,
            is_over: false,
        }
    }

    pub(crate) fn is_over(&self) -> bool {
        self.is_over
    }

    // The next byte, if there is one. A text that cannot be read further is at its end.
    fn byte(&mut self) -> Option<u8> {
        if self.at >= self.end {
            self.end = self.input.read(&mut self.piece).unwrap_or(0);
            self.at = 0;
        }
        self.is_over = self.at >= self.end;
        if self.is_over {
            return None;
        }
        let byte = self.piece[self.at];
        self.at += 1;
        Some(byte)
    }

    // The next number, at most the largest of 64 bits.
    pub(crate) fn number(&mut self) -> u64 {
        let mut value = 0u64;
        for _ in 0..LONGEST {
            match self.byte().and_then(digit_of) {
                Some(digit) => value = value.saturating_mul(10).saturating_add(u64::from(digit)),
                None => break,
            }
        }
        value
    }

    // As many numbers as the room has places.
    pub(crate) fn numbers(&mut self, room: &mut [u64]) {
        for place in room.iter_mut() {
            *place = self.number();
        }
    }

    // The numbers `fill n x0 .. x(n-1)`: the first n places of the room hold x0 .. x(n-1), the others `fill`.
    pub(crate) fn filled(&mut self, room: &mut [u64]) {
        let fill = self.number();
        let count = (self.number() as usize).min(room.len());
        let (given, others) = room.split_at_mut(count);
        self.numbers(given);
        others.fill(fill);
    }
}
