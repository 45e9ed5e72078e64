// Reader and writer on the bounds of version 2, and version and edition in memory. Run R in version 2 stands here.
use crate::{R, lend, run_of, show_changes, show_check, show_read, show_same, show_untouched};
use std::io::Print;

// Run R: after the version byte an edition byte, four channels of two bytes, a set of eight.
pub(crate) const WIDE: [u8; 35] = [
    0x00, 0x23, 0x02, 0x01, 0x01, 0x03, 0x01, 0x00, 0x00, 0x00, 0x01, 0x00, 0x02, 0x01, 0xFF, 0xFF,
    0xFF, 0xFF, 0xFF, 0xFF, 0xFF, 0xFF, 0x00, 0x00, 0x00, 0x00, 0x00, 0x00, 0x00, 0x00, 0x00, 0x00,
    0x00, 0x00, 0x01,
];

fn lengths(out: &impl Print) {
    let mut file = WIDE;
    show_check(out, "version 2, 35 bytes", &file);
    show_check(out, "34 bytes", &file[..34]);
    file[1] = 14;
    show_check(out, "14 bytes", &file[..14]);
    file[1] = 12;
    show_check(out, "12 bytes", &file[..12]);
    file[1] = 13;
    show_check(out, "13 bytes", &file[..13]);
    file[10] = 0;
    show_check(out, "13 bytes, seed 0", &file[..13]);
    file[5] = 0;
    show_check(out, "and T 0", &file[..13]);
    file[3] = 0;
    show_check(out, "and edition 0", &file[..13]);
    file[2] = 3;
    show_check(out, "and version 3", &file[..13]);
}

fn heads(out: &impl Print) {
    let changes = [
        ("version 3", 2, 3),
        ("edition 0", 3, 0),
        ("edition 1", 3, 1),
        ("edition 2", 3, 2),
        ("S 0", 4, 0),
        ("S 64, 35 bytes", 4, 64),
        ("S 65", 4, 65),
        ("T 0", 5, 0),
        ("D 9", 6, 9),
        ("seed 0", 10, 0),
        ("N 0", 13, 0),
    ];
    show_changes(out, WIDE, &changes);
}

fn bodies(out: &impl Print) {
    let channels = [
        ("channel 3", 3u16),
        ("channel 4", 4),
        ("channel 255", 255),
        ("channel 256", 256),
        ("channel 65535", 65535),
    ];
    for (label, channel) in channels {
        let mut file = WIDE;
        file[14..16].copy_from_slice(&channel.to_be_bytes());
        show_check(out, label, &file);
    }
    let changes = [
        ("route 1000", 22, 0x10),
        ("send at site 1", 26, 1),
        ("send to {}", 34, 0),
        ("send to {0,63}", 27, 128),
        ("send before draw 2", 25, 2),
        ("send before draw 3", 25, 3),
    ];
    show_changes(out, WIDE, &changes);
}

// Read, and written into rooms of 34 and 35 nines.
fn rooms(out: &impl Print) {
    let run = show_read(out, "read", &WIDE);
    let short: [u8; 34] = lend(out, "room 34", |room| archive::write(run, room));
    show_untouched(out, &short);
    let enough: [u8; 35] = lend(out, "room 35", |room| archive::write(run, room));
    show_same(out, "the same bytes", enough == WIDE);
}

// Run R in memory: a label, and its version, edition, number of sites and first channel.
pub(crate) type Memory = (&'static str, u8, u8, usize, u16);

pub(crate) const NONE: u16 = base::NO_CHANNEL;

// How the writer judges it. Answers the room that it was lent.
pub(crate) fn show_memory(out: &impl Print, memory: Memory) -> [u8; 35] {
    let (label, version, edition, sites, channel) = memory;
    let mut run = run_of(&R);
    run.network.version = version;
    run.network.edition = edition;
    run.network.sites = sites;
    run.network.channels[0] = channel;
    lend(out, label, |room| archive::write(run, room))
}

fn memory(out: &impl Print) {
    let memories = [
        ("in memory, version 0", 0, 1, 1, NONE),
        ("version 3", 3, 1, 1, NONE),
        ("version 3, edition 2", 3, 2, 1, NONE),
        ("version 1, edition 2", 1, 2, 1, NONE),
        ("version 1, edition 0", 1, 0, 1, NONE),
        ("version 2, edition 2", 2, 2, 1, NONE),
        ("version 2, edition 2, 65 sites", 2, 2, 65, NONE),
        ("version 1, 17 sites", 1, 1, 17, NONE),
        ("version 2, 65 sites", 2, 1, 65, NONE),
        ("version 1, channel 255", 1, 1, 1, 255),
        ("version 2, channel 255", 2, 1, 1, 255),
        ("version 1, channel 65535", 1, 1, 1, NONE),
    ];
    for memory in memories {
        show_memory(out, memory);
    }
    let room = show_memory(out, ("version 2, channel 65535", 2, 1, 1, NONE));
    show_same(out, "run R in version 2", room == WIDE);
}

pub(crate) fn cases(out: &impl Print) {
    lengths(out);
    heads(out);
    bodies(out);
    rooms(out);
    memory(out);
}
