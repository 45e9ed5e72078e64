// Tests of values that a caller hands over, against the model's definitions. Every public function takes anything.
#![tactic(auto)]

mod apart;
mod network;
mod range;
mod send;

pub use apart::far_apart;
pub use network::{is_input, kind_refusal, network_refusal, ports_by, route_ok, sizes_ok};
pub use range::{event_refusal, is_in_range, place_ok};
pub use send::{send_fault, stored_ok};
