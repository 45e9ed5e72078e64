// What the router reads beside a site's outputs and a packet's set.
ghost use Rattle.rules.specs.Routed.{Routed};

// The edition, the routes of so many sites, and the own site, which is one of them.
#[derive(Clone, Copy)]
pub(crate) struct Search<'a> {
    pub(crate) edition: u8,
    pub(crate) routes: &'a [u16],
    pub(crate) sites: usize,
    pub(crate) site: usize,
    ghost routed: { Routed routes.now sites site },
}
