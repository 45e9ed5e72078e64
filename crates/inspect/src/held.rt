// What stands in an archive of either version, read from any bytes: 0 where they end before.
ghost use Rattle.std.specs.Prelude.{◌<◌};

// The bytes of a file.
#[derive(Clone, Copy)]
pub struct Held<'a>(pub &'a [u8]);

// Version 1, or version 2, as which the bytes of every other version are read.
#[derive(Clone, Copy)]
pub enum Version {
    First,
    Second,
}

impl From<u8> for Version {
    fn from(byte: u8) -> Version {
        match byte {
            1 => Version::First,
            _ => Version::Second,
        }
    }
}

impl Held<'_> {
    pub fn byte_at(self, place: usize) -> u8 {
        self.0.get(place).copied().unwrap_or(0)
    }

    fn bytes_at<const N: usize>(self, place: usize) -> [u8; N] {
        let mut bytes = [0; N];
        for (byte, held) in bytes.iter_mut().zip(self.0.iter().skip(place)) {
            *byte = *held;
        }
        bytes
    }

    pub fn word_at(self, place: usize) -> u16 {
        u16::from_be_bytes(self.bytes_at(place))
    }

    // The version that stands there.
    pub fn version_byte(self) -> u8 {
        self.byte_at(2)
    }

    pub fn version(self) -> Version {
        Version::from(self.version_byte())
    }

    pub fn edition(self) -> u8 {
        faults::edition_of(self.version_byte(), self.byte_at(3))
    }

    // Where the fields begin: S, T, D, the seed, the draws, N.
    pub fn fields_place(self) -> usize
        ensures { result < 5 }
    {
        faults::fields_place(self.version_byte())
    }

    pub fn sites(self) -> u8 {
        self.byte_at(self.fields_place())
    }

    pub fn tries(self) -> u8 {
        self.byte_at(self.fields_place() + 1)
    }

    pub fn depth(self) -> u8 {
        self.byte_at(self.fields_place() + 2)
    }

    pub fn draws(self) -> u16 {
        self.word_at(self.fields_place() + 7)
    }

    pub fn sends(self) -> u8 {
        self.byte_at(self.fields_place() + 9)
    }

    // Where channel m, of 256 at most, begins; the channel.
    pub fn channel_place(self, m: usize) -> usize
        ensures { result < 1024 }
    {
        faults::channel_place(self.version_byte(), (m % 256) as u8)
    }

    pub fn channel(self, m: usize) -> u16 {
        let [first, second] = self.bytes_at::<2>(self.channel_place(m));
        faults::channel_of(self.version_byte(), first, second)
    }

    // Where route k, of 4,096 at most, begins.
    pub fn route_place(self, k: usize) -> usize
        ensures { result < 16384 }
    {
        faults::routes_place(self.version_byte(), self.sites()) + 2 * (k % 4096)
    }

    // Where send m, of 256 at most, begins.
    pub fn send_place(self, m: usize) -> usize
        ensures { result < 1048576 }
    {
        faults::send_place(self.version_byte(), self.sites(), (m % 256) as u8)
    }

    // The set of send m: two bytes in version 1, eight in version 2.
    pub fn set_of(self, m: usize) -> u64 {
        let place = self.send_place(m) + 3;
        match self.version() {
            Version::First => u64::from(self.word_at(place)),
            Version::Second => u64::from_be_bytes(self.bytes_at(place)),
        }
    }
}
