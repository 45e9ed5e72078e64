// The functions of the library for C and Rust, to which crate exports_c gives their C names: an archive played, checked,
// copied, moved to the other version. Each is thin over a proved function, takes slices of any length and any bytes, and
// answers 0 or the number of document 01's refusal, or 02's; a refusal leaves every lent element as it was.
// calls/specs/Calls.antt and, for the moves, format/specs/Moves.antt say what they answer, include/fennqualo.h tells it to C.
// What no proof can see: a caller in C hands over slices that are there, that do not overlap, and that nobody else
// changes during the call.
#![tactic(auto)]

ghost use Rattle.std.specs.Prelude.{◌≡◌, ◌≤◌, length};
ghost use Rattle.base.specs.Refusals.{refusal_of};
ghost use Rattle.format.specs.Refusals.{read_refusal};
ghost use Rattle.format.specs.Moves.{move_refusal, moved};
ghost use Rattle.base.specs.Answers.{at_front};
ghost use Rattle.calls.specs.Calls.{count_places, four_counts};
ghost use Rattle.calls.specs.Calls.{call_refusal, book_after, counts_after, copy_refusal, copy_after};

use base::Refusal;
use types::Counts;

// The counts at the front of a lent slice.
fn put_counts(counts: Counts, out: &mut [u64])
    requires { count_places ≤ length out.old }
    ensures { out.new ≡ at_front (four_counts counts) out.old }
{
    out[0] = counts.accepted as u64;
    out[1] = counts.pairs as u64;
    out[2] = counts.serviced as u64;
    out[3] = counts.owed as u64;
}

// What C is answered: 0, or the refusal's number. (Numbers from here on: the C interface.)
fn told<T: Copy>(answer: Result<T, Refusal>) -> u8
    ensures { result ≡ refusal_of answer }
{
    match answer {
        Ok(_) => 0,
        Err(refusal) => u8::from(refusal),
    }
}

// The reader's refusal, 1 to 8 or 17; 0 for an archive.
pub fn fennqualo_check(bytes: &[u8]) -> u8
    ensures { result ≡ read_refusal bytes.now }
{
    told(archive::check(bytes))
}

fn play(bytes: &[u8], book: &mut [u8], counts: &mut [u64]) -> Result<(), Refusal>
    ensures { (refusal_of result ≡ call_refusal bytes.now (length book.old) (length counts.old))
        × (book.new ≡ book_after bytes.now book.old (length counts.old))
        × (counts.new ≡ counts_after bytes.now (length book.old) counts.old) }
{
    if counts.len() < calls::COUNTS {
        archive::check(bytes)?;
        return Err(Refusal::Room);
    }
    let played = words::play(bytes, book)?;
    put_counts(played, counts);
    Ok(())
}

// Plays an archive: its services at the front of the book, packets accepted, pairs, services and owed pairs at the
// front of the counts. Refusals 1 to 8, 17, 14 for a book too short, then 14 for a slice of counts too short.
pub fn fennqualo_play(bytes: &[u8], book: &mut [u8], counts: &mut [u64]) -> u8
    ensures { (result ≡ call_refusal bytes.now (length book.old) (length counts.old))
        × (book.new ≡ book_after bytes.now book.old (length counts.old))
        × (counts.new ≡ counts_after bytes.now (length book.old) counts.old) }
{
    told(play(bytes, book, counts))
}

// The bytes at the front of a lent slice. (By `for`: `copy_from_slice` asks memmove of those who link the library, and
// include/fennqualo.h says that memcpy and memset are enough.)
fn put_bytes(bytes: &[u8], out: &mut [u8])
    requires { length bytes.now ≤ length out.old }
    ensures { out.new ≡ at_front bytes.now out.old }
{
    for i in 0..bytes.len() {
        out[i] = bytes[i];
    }
}

fn copy(bytes: &[u8], out: &mut [u8]) -> Result<(), Refusal>
    ensures { (refusal_of result ≡ copy_refusal bytes.now (length out.old))
        × (out.new ≡ copy_after bytes.now out.old) }
{
    archive::check(bytes)?;
    if out.len() < bytes.len() {
        return Err(Refusal::Room);
    }
    put_bytes(bytes, out);
    Ok(())
}

// Copies an archive to the front of the room. The writer would give the same bytes for its run (`write_read`), so no run is
// made. Refusals 1 to 8, 17, then 14 for a room too short.
pub fn fennqualo_copy(bytes: &[u8], out: &mut [u8]) -> u8
    ensures { (result ≡ copy_refusal bytes.now (length out.old))
        × (out.new ≡ copy_after bytes.now out.old) }
{
    told(copy(bytes, out))
}

// Moves an archive of version 1 over to version 2, to the front of the room; the moved file begins with its length.
// Refusals 1, 2 where the version is not 1, 3 to 8, then 14 for a room too short.
pub fn fennqualo_over(bytes: &[u8], out: &mut [u8]) -> u8
    ensures { (result ≡ move_refusal 1 2 bytes.now (length out.old))
        × (out.new ≡ moved 1 2 bytes.now out.old) }
{
    told(archive::move_over(bytes, out))
}

// Moves an archive of version 2 back to version 1 in the same way: 1, 2 where the version is not 2, 17, 3 to 8, 15 where it
// has more than 16 sites or an edition other than 1, then 14.
pub fn fennqualo_back(bytes: &[u8], out: &mut [u8]) -> u8
    ensures { (result ≡ move_refusal 2 1 bytes.now (length out.old))
        × (out.new ≡ moved 2 1 bytes.now out.old) }
{
    told(archive::move_back(bytes, out))
}
