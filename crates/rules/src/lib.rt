// The rules of document 01, in edition 2 with L6's and in edition 3 with L10's, as code, each on the places that it looks at
// and proved equal to the definitions of crate model: the router, with the outputs in the way where it fails (L7), the
// net-inputs, the net-outputs, the out-queue, the operator and the timeout.
// Every public function takes anything.
#![tactic(auto)]

mod blocking;
mod branch;
mod inputs;
mod phases;
mod places;
mod ports;
mod queues;
mod router;
mod search;
mod terminators;
mod timeout;
mod work;

pub use blocking::{ask_in, blocking_in, input_blocking};
pub use inputs::{InputTurn, all_ready, other_input, seek_turn};
pub use phases::{empty_output, free_input, held_terminator, is_listening};
pub use places::{ChannelTurn, LocalTurn, QueueTurn, channel_output, local_output, out_queue};
pub use queues::push_out;
pub use router::{Choice, route_in, route_packet};
pub use timeout::{can_cut, time_out};
pub use work::{OperatorTurn, operator};
