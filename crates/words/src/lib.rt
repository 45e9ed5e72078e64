// A run's state as numbers in a lent slice: where each place lies (layout), a place as two words (pack), places read and
// written (load, store; marked, for the outputs of a net-input), which words are a state's (form); RUN in place by arms (arms,
// inputs, runs), each with what its rule says (turns) and what is stored of it (puts, pairs); the outputs in the way of a
// packet (blocking); SEND in place (sends); both on any lent words, with their refusals (events, refusals); the owed pairs
// (owing); the player over words (player).
// layout's specs/Words.antt says which state words stand for.
#![tactic(auto)]

mod arms;
mod blocking;
mod events;
mod form;
mod inputs;
mod load;
mod marked;
mod owing;
mod pack;
mod pairs;
mod player;
mod puts;
mod refusals;
mod runs;
mod sends;
mod store;
mod turns;

pub use events::{run, send};
pub use form::write_empty;
pub use layout::WORDS;
pub use owing::owed;
pub use player::{Tally, play};
