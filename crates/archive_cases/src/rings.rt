// Rings of 16 and of 17 sites in version 2, moved back.
ghost use Rattle.std.specs.Prelude.{◌*◌, ◌+◌, ◌<◌, ◌≤◌};

use crate::{NINE, lend, show_check, show_same, show_untouched, show_written};
use std::io::Print;

// A ring of so many sites in version 2, in a file of SIZE bytes: T, D and the seed are 1, draws and N 0. A channel
// leads from port 1 of each site to port 1 of the next, and the route is 1000 between different sites; behind these
// zeros.
fn ring<const SIZE: usize>(sites: usize) -> [u8; SIZE]
    requires { (1 ≤ sites) × (sites ≤ 17) × (14 + 8 * sites ≤ SIZE) × (SIZE < 65536) }
{
    let mut file = [0; SIZE];
    let [high, low] = (SIZE as u16).to_be_bytes();
    let (head, body) = file.split_at_mut(14);
    head.copy_from_slice(&[high, low, 2, 1, sites as u8, 1, 1, 0, 0, 0, 1, 0, 0, 0]);
    let (channels, routes) = body.split_at_mut(8 * sites);
    let (ports, _) = channels.as_chunks_mut::<8>();
    for (site, channel) in ports.iter_mut().enumerate() {
        *channel = [
            0,
            (4 * ((site + 1) % sites)) as u8,
            255,
            255,
            255,
            255,
            255,
            255,
        ];
    }
    let (pairs, _) = routes.as_chunks_mut::<2>();
    for (pair, route) in pairs.iter_mut().take(sites * sites).enumerate() {
        if pair / sites != pair % sites {
            *route = [0x10, 0];
        }
    }
    file
}

fn back_and_over(out: &impl Print, file: [u8; 654]) {
    let _: [u8; 588] = lend(
        out,
        "back, room 588",
        |room| archive::move_back(&file, room),
    );
    let enough: [u8; 589] = lend(out, "room 589", |room| archive::move_back(&file, room));
    let again: [u8; 654] = lend(
        out,
        "over again, room 654",
        |room| archive::move_over(&enough, room),
    );
    show_same(out, "the same bytes", again == file);
}

// 14 + 128 + 512 bytes, back 13 + 64 + 512.
fn ring_of_16(out: &impl Print) {
    let file: [u8; 654] = ring(16);
    show_check(out, "16 sites, 654 bytes", &file);
    back_and_over(out, file);
}

// 14 + 136 + 578 bytes.
fn ring_of_17(out: &impl Print) {
    let file: [u8; 728] = ring(17);
    show_check(out, "17 sites, 728 bytes", &file);
    let room: [u8; 728] = lend(
        out,
        "back, room 728",
        |room| archive::move_back(&file, room),
    );
    show_untouched(out, &room);
    let _: [u8; 0] = lend(out, "no room", |room| archive::move_back(&file, room));
}

// 11 bytes more: a send before draw 0, at site 0.
fn ring_with_send(out: &impl Print) {
    let mut file: [u8; 739] = ring(17);
    file[13] = 1;
    let mut room = [NINE; 739];
    show_written(
        out,
        "17 sites, send to {}",
        archive::move_back(&file, &mut room),
    );
    file[738] = 1;
    show_written(out, "send to {0}", archive::move_back(&file, &mut room));
}

pub(crate) fn cases(out: &impl Print) {
    ring_of_16(out);
    ring_of_17(out);
    ring_with_send(out);
}
