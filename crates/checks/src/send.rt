// The refusal of a SEND's own, and the test of a stored send, from the numbers that they look at. Both take any numbers.
ghost use Rattle.std.specs.Prelude.{◌≡◌};
ghost use Rattle.base.specs.Refusals.{refusal_of};
ghost use Rattle.model.specs.Events.{send_fault_by};
ghost use Rattle.checks.specs.Sends.{send_after};

use base::Refusal;

// 9, 10, 12, 11 or none for SEND (site, set), with S, D, the counter and the entries of the site's out-queue. (Numbers and
// no network: `send_fault_settled` is of them.)
pub fn send_fault(
    sites: usize,
    depth: usize,
    counter: u8,
    entries: usize,
    site: usize,
    set: u64,
) -> Result<(), Refusal>
    ensures { refusal_of result ≡ send_fault_by sites depth counter entries site set }
{
    if sites <= site {
        return Err(Refusal::Unknown);
    }
    if !sets::is_targets(set, sites) {
        return Err(Refusal::Targets);
    }
    if base::PACKETS <= counter {
        return Err(Refusal::Packets);
    }
    if depth <= entries {
        return Err(Refusal::Queue);
    }
    Ok(())
}

// A stored send behind one with draw number `last`, or the first with 0 there: its site, set and draw number possible, and
// its draw number not below the last. (The send's fields stay apart: `stored_ok_settled` is of them.)
pub fn stored_ok(draw: u16, site: u8, set: u64, sites: usize, draws: u16, last: u16) -> bool
    ensures { result ≡ send_after sites draws last (record { set = set; draw = draw; site = site }) }
{
    let at = base::wide(site);
    let targets = sets::is_targets(set, sites);
    (at < sites) & targets & (draw <= draws) & (last <= draw)
}
