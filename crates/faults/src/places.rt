// What differs between the versions of an archive: where its parts begin, how long it is, and what an edition byte and the
// bytes of a channel say. A version that is not 1 is taken as 2.
// (Versions and editions are bytes and no enums: every one may be handed in, as the theorems of these functions say.)
ghost use Rattle.std.specs.Prelude.{◌≡◌, ◌+◌, ◌*◌};
ghost use Rattle.format.specs.Format as spec;

// Where the fields behind version and edition begin: S there, then T, D, the seed, the draws and N.
pub fn fields_place(version: u8) -> usize
    ensures { result ≡ spec.sites_place version }
{
    if version == 1 { 3 } else { 4 }
}

// Where a channel stands, 4 x site + port - 1.
pub fn channel_place(version: u8, channel: u8) -> usize
    ensures { result ≡ spec.channel_place version channel }
{
    let c = base::wide(channel);
    if version == 1 { 13 + c } else { 14 + 2 * c }
}

// Where the routes begin.
pub fn routes_place(version: u8, sites: u8) -> usize
    ensures { result ≡ spec.routes_place version sites }
{
    let n = base::wide(sites);
    if version == 1 { 13 + 4 * n } else { 14 + 8 * n }
}

// Where a send stands: behind the routes.
pub fn send_place(version: u8, sites: u8, send: u8) -> usize
    ensures { result ≡ spec.sends_place version sites + spec.send_width version * send }
{
    let n = base::wide(sites);
    let k = base::wide(send);
    let from = routes_place(version, sites) + 2 * (n * n);
    if version == 1 {
        from + 5 * k
    } else {
        from + 11 * k
    }
}

// The number of bytes of an archive with so many sites and sends.
pub fn size_of(version: u8, sites: u8, sends: u8) -> usize
    ensures { result ≡ spec.length_with version sites sends }
{
    send_place(version, sites, sends)
}

// The edition, by the byte behind the version.
pub fn edition_of(version: u8, byte: u8) -> u8
    ensures { result ≡ spec.edition_of version byte }
{
    if version == 1 { 1 } else { byte }
}

// The channel of two bytes; in version 1 of the first alone, and 255 is none.
pub fn channel_of(version: u8, first: u8, second: u8) -> u16
    ensures { result ≡ spec.channel_of version first second }
{
    if version == 1 {
        if first == 255 {
            return base::NO_CHANNEL;
        }
        return u16::from(first);
    }
    base::word(first, second)
}
