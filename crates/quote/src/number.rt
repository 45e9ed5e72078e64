// The number that a word says: decimal digits alone, leading zeros among them, at any length. specs/Words.antt has it.
ghost use Rattle.std.specs.Prelude.{◌≡◌, true, ◌+◌, ◌-◌, ◌*◌, ◌≤◌, min, set};
ghost use Rattle.quote.specs.Words.{is_digit, beyond, number_of};

// How many numbers the program takes.
pub const NUMBERS: usize = 5;
// Stands for every number that is larger than an argument may be.
const BEYOND: u64 = latency::ARGUMENT + 1;

// The value of a word of digits, or BEYOND where that is less; 0 for any other word, and for the empty one.
pub fn number_of(word: &[u8]) -> u64
    ensures { result ≡ number_of word.now }
{
    let mut value = 0;
    for byte in word {
        if !is_digit(*byte) {
            return 0;
        }
        value = with_digit(value, *byte);
    }
    value
}

fn is_digit(byte: u8) -> bool
    ensures { result ≡ is_digit byte }
{
    byte.is_ascii_digit()
}

// A digit more behind a value.
fn with_digit(value: u64, byte: u8) -> u64
    requires { (value ≤ beyond) × (is_digit byte ≡ true) }
    ensures { result ≡ min beyond (10 * value + (byte - 48)) }
{
    BEYOND.min(10 * value + u64::from(byte - b'0'))
}

// The numbers with that of a word at place k, which may be none of theirs.
pub fn with_number(numbers: [u64; NUMBERS], k: usize, word: &[u8]) -> [u64; NUMBERS]
    ensures { result ≡ set numbers k (number_of word.now) }
{
    if k < NUMBERS {
        let mut now = numbers;
        now[k] = number_of(word);
        return now;
    }
    numbers
}
