// Words for an archive that is none by its head: refusals 1 to 5 and 17; and for one that is one.
use crate::held::{Held, Version};
use std::fmt::{Display, Formatter, Result, Write};

// Bytes of a file that are seen.
const SEEN: usize = 65536;

// So many things, as `1 site` and `2 sites`.
#[derive(Clone, Copy)]
pub struct Count<'a>(pub usize, pub &'a str);

impl Display for Count<'_> {
    fn fmt<W: Write>(&self, f: &mut Formatter<W>) -> Result {
        let Count(count, thing) = *self;
        let plural = if count == 1 { "" } else { "s" };
        write!(f, "{count} {thing}{plural}")
    }
}

// A good one: what it holds; of version 1 the version is not told.
pub fn write_good<W: Write>(f: &mut Formatter<W>, held: Held<'_>) -> Result {
    let bytes = Count(held.0.len(), "byte");
    let sites = Count(usize::from(held.sites()), "site");
    let sends = Count(usize::from(held.sends()), "send");
    let draws = Count(usize::from(held.draws()), "draw");
    match held.version() {
        Version::First => write!(f, "an archive of {bytes}: {sites}, {sends}, {draws}"),
        Version::Second => {
            let version = held.version_byte();
            let edition = held.edition();
            write!(
                f,
                "an archive of {bytes}, version {version}, edition {edition}: {sites}, {sends}, {draws}"
            )
        }
    }
}

// 1: fewer bytes than a head has, or another length than the one it names.
pub fn write_short<W: Write>(f: &mut Formatter<W>, held: Held<'_>) -> Result {
    let length = held.0.len();
    let named = held.word_at(0);
    if length < 13 {
        write!(f, "{}, fewer than the 13 of a head", Count(length, "byte"))
    } else if length < SEEN {
        write!(f, "{length} bytes, but bytes 0 and 1 say {named}")
    } else {
        write!(f, "more than 65535 bytes, but bytes 0 and 1 say {named}")
    }
}

// 2: the version.
pub fn write_version<W: Write>(f: &mut Formatter<W>, held: Held<'_>) -> Result {
    write!(
        f,
        "byte 2, the version, is {}, not 1 or 2",
        held.version_byte()
    )
}

// 17: the edition.
pub fn write_edition<W: Write>(f: &mut Formatter<W>, held: Held<'_>) -> Result {
    write!(
        f,
        "byte 3, the edition, is {}, not 1, 2 or 3",
        held.edition()
    )
}

// 3: the first of S, T and D that is outside its limits.
pub fn write_limit<W: Write>(f: &mut Formatter<W>, held: Held<'_>) -> Result {
    let place = held.fields_place();
    let sites = usize::from(held.sites());
    let most = match held.version() {
        Version::First => base::FIRST_SITES,
        Version::Second => base::SITES,
    };
    if !(1..=most).contains(&sites) {
        write!(
            f,
            "byte {place}, the number of sites, is {sites}, not 1 to {most}"
        )
    } else if held.tries() == 0 {
        write!(
            f,
            "byte {}, the limit of tries, is 0, not 1 to 255",
            place + 1
        )
    } else {
        write!(
            f,
            "byte {}, the depth of the queues, is {}, not 1 to 8",
            place + 2,
            held.depth()
        )
    }
}

// 4: the seed.
pub fn write_seed<W: Write>(f: &mut Formatter<W>, held: Held<'_>) -> Result {
    let place = held.fields_place();
    write!(f, "bytes {} to {}, the seed, are 0", place + 3, place + 6)
}

// 5: the length that S and N make. In version 2 thirteen bytes have no N.
pub fn write_size<W: Write>(f: &mut Formatter<W>, held: Held<'_>) -> Result {
    let length = held.0.len();
    if length <= held.fields_place() + 9 {
        return f.write_str("13 bytes, fewer than the 14 of a head of version 2");
    }
    let made = faults::size_of(held.version_byte(), held.sites(), held.sends());
    let sites = Count(usize::from(held.sites()), "site");
    let sends = Count(usize::from(held.sends()), "send");
    write!(f, "{length} bytes, but {sites} and {sends} make {made}")
}
