// The C names of crate exports, for the static library alone: each is the function there of the same name, with the
// clauses that it has. include/fennqualo.h tells C what they answer. It assumes nothing.
#![tactic(auto)]

ghost use Rattle.std.specs.Prelude.{◌≡◌, length};
ghost use Rattle.format.specs.Refusals.{read_refusal};
ghost use Rattle.format.specs.Moves.{move_refusal, moved};
ghost use Rattle.calls.specs.Calls.{call_refusal, book_after, counts_after, copy_refusal, copy_after};

// The reader's refusal, 1 to 8 or 17; 0 for an archive.
#[unsafe(no_mangle)]
pub extern "C" fn fennqualo_check(bytes: &[u8]) -> u8
    ensures { result ≡ read_refusal bytes.now }
{
    exports::fennqualo_check(bytes)
}

// Plays an archive into the book and the counts. Refusals 1 to 8, 14 for a book too short, then 14 for a slice of counts
// too short.
#[unsafe(no_mangle)]
pub extern "C" fn fennqualo_play(bytes: &[u8], book: &mut [u8], counts: &mut [u64]) -> u8
    ensures { (result ≡ call_refusal bytes.now (length book.old) (length counts.old))
        × (book.new ≡ book_after bytes.now book.old (length counts.old))
        × (counts.new ≡ counts_after bytes.now (length book.old) counts.old) }
{
    exports::fennqualo_play(bytes, book, counts)
}

// Copies an archive to the front of the room. Refusals 1 to 8, then 14 for a room too short.
#[unsafe(no_mangle)]
pub extern "C" fn fennqualo_copy(bytes: &[u8], out: &mut [u8]) -> u8
    ensures { (result ≡ copy_refusal bytes.now (length out.old))
        × (out.new ≡ copy_after bytes.now out.old) }
{
    exports::fennqualo_copy(bytes, out)
}

// Moves an archive of version 1 over to version 2, to the front of the room.
#[unsafe(no_mangle)]
pub extern "C" fn fennqualo_over(bytes: &[u8], out: &mut [u8]) -> u8
    ensures { (result ≡ move_refusal 1 2 bytes.now (length out.old))
        × (out.new ≡ moved 1 2 bytes.now out.old) }
{
    exports::fennqualo_over(bytes, out)
}

// Moves an archive of version 2 back to version 1 in the same way.
#[unsafe(no_mangle)]
pub extern "C" fn fennqualo_back(bytes: &[u8], out: &mut [u8]) -> u8
    ensures { (result ≡ move_refusal 2 1 bytes.now (length out.old))
        × (out.new ≡ moved 2 1 bytes.now out.old) }
{
    exports::fennqualo_back(bytes, out)
}
