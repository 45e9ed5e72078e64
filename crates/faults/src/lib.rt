// Lent bytes judged as the reader does: the refusal, and for 6, 7 and 8 the first channel, route or send at fault.
// format/specs/Faults.antt says what that is, by the model's own tests; proofs/Theorems.antt that it is found there and
// nowhere else. All is read out of the lent bytes: there is no table of inputs that are fed, no route is unpacked, no run
// is made. The public functions take any slice, of any length, and any numbers.
#![tactic(auto)]

ghost use Rattle.std.specs.Prelude.{◌≡◌};
ghost use Rattle.format.specs.Faults.{fault_of, told_fault};

mod head;
mod places;
mod search;
mod tests;

use base::Refusal;
pub use format::Fault;
pub use places::{
    channel_of, channel_place, edition_of, fields_place, routes_place, send_place, size_of,
};

// The reader's refusal of these bytes, and its place; none where they are an archive.
pub fn find(bytes: &[u8]) -> Option<Fault>
    ensures { told_fault result ≡ fault_of bytes.now }
{
    if let Err(refusal) = head::head_refusal(bytes) {
        return Some(Fault { refusal, place: 0 });
    }
    let version = bytes[2];
    let p = fields_place(version);
    let sites = base::wide(bytes[p]);
    if let Some(place) = search::first_channel(bytes, version, sites) {
        return Some(Fault {
            refusal: Refusal::Channels,
            place,
        });
    }
    if let Some(place) = search::first_route(bytes, version, sites) {
        return Some(Fault {
            refusal: Refusal::Routes,
            place,
        });
    }
    let sends = base::wide(bytes[p + 9]);
    if let Some(place) = search::first_send(bytes, version, sites, sends) {
        return Some(Fault {
            refusal: Refusal::Sends,
            place,
        });
    }
    None
}
