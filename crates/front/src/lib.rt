// What the programs share at their desk: the words that they are called with, the usage and messages, files that are
// opened safely, lines in a fixed room, and the line of numbers for the front. What is read and written no contract can
// say: the functions are proved safe and ending.
#![tactic(auto)]

mod desk;
mod files;
mod kind;
mod line;
mod message;
mod program;
mod status;
mod words;

pub use desk::Desk;
pub use line::Line;
pub use message::Usage;
pub use program::{Program, arg_count};
pub use status::Status;
pub use words::{NoWork, Words};
