// The sizes, each once, numbers of one and two bytes made wider, numbers of two, four and eight bytes, and a number less
// one. specs/Sizes.antt has the same sizes; the rest of specs/ holds the definitions and laws that every crate shares.
#![tactic(auto)]

mod refusal;

ghost use Rattle.std.specs.Prelude.{◌≡◌, ◌<◌, ◌+◌, ◌-◌, ◌*◌};

pub use refusal::Refusal;

// Sites of a network at most, and of one of version 1.
pub const SITES: usize = 64;

pub const FIRST_SITES: usize = 16;
// Net-inputs of a site.
pub const INPUTS: usize = 5;
// Net-outputs of a site, the split output among them, and its number.
pub const OUTPUTS: usize = 6;

pub const SPLIT_PORT: usize = 5;
// In-queues of a site: that of output 0, and that of the split output.
pub const IN_QUEUES: usize = 2;
// Ports of a site that a channel may join: 1 to 4.
pub const PORTS: usize = 4;
// Places of a queue.
pub const QUEUE: usize = 8;
// Codes of RUN, and with those of the split output and its operator.
pub const CODES: usize = 13;

pub const SPLIT_CODES: usize = 15;
// The channel of an output that is joined to nothing.
pub const NO_CHANNEL: u16 = 65535;
// Stored sends at most.
pub const SENDS: usize = 255;
// Packets accepted at most.
pub const PACKETS: u8 = 255;
// Bits of a set of sites.
pub const SET: usize = 64;

// The same number, as an index: of one byte, and of two. (Two functions: `wide_settled` and `wider_settled` are of each.)
pub fn wide(x: u8) -> usize
    ensures { (result ≡ x) × (result < 256) }
{
    usize::from(x)
}

pub fn wider(x: u16) -> usize
    ensures { (result ≡ x) × (result < 65536) }
{
    usize::from(x)
}

// The number of two bytes, the higher first. (So are `word`, `quad` and `oct`: each has its theorem.)
pub fn word(high: u8, low: u8) -> u16
    ensures { result ≡ high * 256 + low }
{
    u16::from_be_bytes([high, low])
}

// The number of four bytes, by the words of the higher two and of the lower two.
pub fn quad(high: u16, low: u16) -> u32
    ensures { result ≡ high * 65536 + low }
{
    u32::from(high) * 65536 + u32::from(low)
}

// The number of eight bytes, by those of the higher four and of the lower four.
pub fn oct(high: u32, low: u32) -> u64
    ensures { result ≡ high * 4294967296 + low }
{
    u64::from(high) * 4294967296 + u64::from(low)
}

// One less, and 0 of 0.
pub fn one_less(n: usize) -> usize
    ensures { result ≡ n - 1 }
{
    n.saturating_sub(1)
}
