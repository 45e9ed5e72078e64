// The small steps of a player's loop, each total: the next stored send, a service entered in the book, the room that a book may take.
ghost use Rattle.std.specs.Prelude.{◌≡◌, ◌&&◌, ◌≤◌, ltb, eqb};
ghost use Rattle.base.specs.Sizes.{sends_most};
ghost use Rattle.machine.specs.Progress.{capped_at, entries_after, book_after, entries_by, book_by};
ghost use Rattle.machine.specs.Play.{room_of, book_space};

use types::{Ran, StoredSend};

// A place within the stored sends: k, if it is one, else the last.
pub fn capped(k: usize) -> usize
    ensures { result ≡ capped_at k }
{
    k.min(base::SENDS - 1)
}

// Whether send k of so many is to be applied before draw d.
pub fn is_due(order: StoredSend, k: usize, count: usize, d: u16) -> bool
    ensures { result ≡ (ltb k count && eqb order.draw d) }
{
    (k < count) & (order.draw == d)
}

// One service entered behind the first so many: draw, packet, site, in four bytes. Answers how many there are then. Where the
// lent bytes have no room for it nothing is written.
pub fn enter(book: &mut [u8], serviced: usize, draw: u16, packet: u8, site: u8) -> usize
    ensures { (result ≡ entries_after book.old serviced)
        × (book.new ≡ book_after book.old serviced draw packet site) }
{
    if book.len() / 4 <= serviced {
        return serviced;
    }
    let at = 4 * serviced;
    let [high, low] = draw.to_be_bytes();
    book[at..at + 4].copy_from_slice(&[high, low, packet, site]);
    serviced + 1
}

// The same by RUN's answer: a service is entered, nothing else is.
pub fn enter_answer(book: &mut [u8], serviced: usize, draw: u16, answer: Ran) -> usize
    ensures { (result ≡ entries_by answer book.old serviced)
        × (book.new ≡ book_by answer book.old serviced draw) }
{
    match answer {
        Ran::Serviced(packet, site) => enter(book, serviced, draw, packet, site),
        Ran::Nothing | Ran::Changed | Ran::Refused(_) => serviced,
    }
}

// The bytes that the book of the first so many sends may take: 4 for each site of each set, for any count. There are no
// more sends than there are places.
pub fn book_room(sends: [StoredSend; base::SENDS], count: usize) -> usize
    ensures { result ≡ book_space sends count }
{
    let mut sum = 0usize;
    for send in &sends[..count.min(base::SENDS)] {
        sum += sets::size(send.set);
    }
    4 * sum
}
