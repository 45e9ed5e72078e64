// Editions 2 and 3 of version 2: run R read, written and not moved back; editions that are unknown, and which refusal comes
// first.
use crate::wide::{NONE, WIDE, show_memory};
use crate::{lend, show_changes, show_read, show_same, show_untouched};
use std::io::Print;

// Run R in an edition, and with so many sites.
fn edited(edition: u8, sites: u8) -> [u8; 35] {
    let mut file = WIDE;
    file[3] = edition;
    file[4] = sites;
    file
}

fn heads(out: &impl Print) {
    show_changes(out, WIDE, &[("edition 3", 3, 3), ("edition 255", 3, 255)]);
    let changes = [("edition 3, S 0", 3, 3), ("edition 2, S 0", 3, 2)];
    show_changes(out, edited(1, 0), &changes);
}

fn memory(out: &impl Print) {
    let memories = [
        ("in memory, version 2, edition 3", 2, 3, 1, NONE),
        ("version 1, edition 3", 1, 3, 1, NONE),
        ("version 2, edition 3, 65 sites", 2, 3, 65, NONE),
    ];
    for memory in memories {
        show_memory(out, memory);
    }
}

// Read, and written into rooms of 35 and 34 nines.
fn written(out: &impl Print, label: &str, file: [u8; 35]) {
    let run = show_read(out, label, &file);
    let enough: [u8; 35] = lend(out, "room 35", |room| archive::write(run, room));
    show_same(out, "the same bytes", enough == file);
    let short: [u8; 34] = lend(out, "room 34", |room| archive::write(run, room));
    show_untouched(out, &short);
}

// Into a room of 36 nines, and into none.
fn moved(out: &impl Print, file: [u8; 35]) {
    let room: [u8; 36] = lend(out, "back, room 36", |room| archive::move_back(&file, room));
    let _: [u8; 0] = lend(out, "no room", |room| archive::move_back(&file, room));
    show_untouched(out, &room);
}

// Moved back into a room of 36 nines.
fn show_back(out: &impl Print, label: &str, file: [u8; 35]) {
    let _: [u8; 36] = lend(out, label, |room| archive::move_back(&file, room));
}

// Edition 4, which is unknown, and edition 3 of a version that is.
fn unknown(out: &impl Print) {
    show_changes(out, WIDE, &[("edition 4", 3, 4)]);
    show_changes(out, edited(1, 0), &[("edition 4, S 0", 3, 4)]);
    let memories = [
        ("in memory, version 2, edition 4", 2, 4, 1, NONE),
        ("version 1, edition 4", 1, 4, 1, NONE),
        ("version 2, edition 4, 65 sites", 2, 4, 65, NONE),
        ("version 3, edition 3", 3, 3, 1, NONE),
    ];
    for memory in memories {
        show_memory(out, memory);
    }
    show_back(out, "edition 4, back", edited(4, 1));
    show_back(out, "edition 4, S 0, back", edited(4, 0));
}

// Edition 3 read, written and moved, and its first fault on the way back.
fn restricted(out: &impl Print) {
    let file = edited(3, 1);
    written(out, "edition 3, read", file);
    moved(out, file);
    show_back(out, "edition 3, S 0, back", edited(3, 0));
    show_back(out, "edition 3, S 65, back", edited(3, 65));
    let _: [u8; 36] = lend(
        out,
        "edition 3, over",
        |room| archive::move_over(&file, room),
    );
}

pub(crate) fn cases(out: &impl Print) {
    heads(out);
    memory(out);
    let file = edited(2, 1);
    written(out, "edition 2, read", file);
    moved(out, file);
    show_back(out, "edition 3, back", edited(3, 1));
    restricted(out);
    unknown(out);
}
