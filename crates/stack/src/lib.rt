// For the test of the stack alone (tests/stack/): the reader under a C name. It is called in one place, so that the
// compiler puts it into the function that C calls. What that one answers may be made of any channel, route and send of
// the run, so that no array of the run can be left out.
#![tactic(auto)]

ghost use Rattle.std.specs.Prelude.{◌<◌, IfOk};

use base::Refusal;

// What k picks of the run, a channel, a route and a send, as the digits of one number below 2^62.
fn told(run: types::Run, k: usize) -> usize
    ensures { result < 4611686018427387904 }
{
    let network = run.network;
    let channels = network.channels;
    let routes = network.routes;
    let sends = run.sends;
    let channel = channels[k % (base::PORTS * base::SITES)];
    let route = routes[k % (base::SITES * base::SITES)];
    let send = sends[k % base::SENDS];
    let placed = base::wide(send.site) % base::SITES + base::SITES * ((send.set % 256) as usize);
    let drawn = base::wider(send.draw) + 65536 * placed;
    let routed = base::wider(route) + 65536 * drawn;
    base::wider(channel) + 65536 * routed
}

// What k picks of the run that is read, or why none is. (By `?`: where the answer is matched, the compiler keeps an array more,
// which is not the reader's.)
fn picked(bytes: &[u8], k: usize) -> Result<usize, Refusal>
    ensures { IfOk result (λ n. n < 4611686018427387904) }
{
    Ok(told(archive::read(bytes)?, k))
}

// Reads the archive: its refusal, 1 to 17, or 32 and what k picks of its run.
#[unsafe(no_mangle)]
pub extern "C" fn stack_read(bytes: &[u8], k: usize) -> usize {
    match picked(bytes, k) {
        Ok(picked) => 32 + picked,
        Err(refusal) => base::wide(u8::from(refusal)),
    }
}
