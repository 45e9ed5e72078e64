// The machine: the core step by value, single SEND and RUN, and the player of stored runs, each proved equal to the definitions
// of crate model and of specs/.
#![tactic(auto)]

mod clock;
mod events;
mod heard;
mod inputs;
mod owing;
mod player;
mod step;
mod store;
mod turns;

pub use clock::{Clock, tick, ticked};
pub use events::{empty_state, run, send};
pub use owing::site_pairs;
pub use player::{PlayAnswer, Started, play, refused, start};
pub use turns::{book_room, capped, enter, enter_answer, is_due};
