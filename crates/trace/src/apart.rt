// Which sites are far apart, in the words of docs/TRACE.md: a line for each site. Every function takes any numbers: a
// site from 64 on is in no set.
use crate::printed::{Set, print};
use std::io::{Print, Result};
use types::Network;

// Prints `S {U,..}` for each site S of the network, with the sites U far apart from it.
pub fn print_sites(out: &impl Print, network: &Network) -> Result<()> {
    for s in 0..network.sites {
        print(out, format_args!("{s} {}", sites_apart(network, s)))?;
    }
    Ok(())
}

// The sites of the network that are far apart from site s.
fn sites_apart(network: &Network, s: usize) -> Set {
    let apart = (0..network.sites)
        .filter(|u| checks::far_apart(*network, s, *u))
        .fold(0, |set, u| sets::with(set, u));
    Set(apart)
}
