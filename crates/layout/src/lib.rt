// A run's state as numbers: where each place lies among the words, a place as two words, which state words stand for, what a store leaves, which
// places have nothing to do (specs/), and the laws of all these (proofs/). The numbers of the layout are here for the code, which is crate words.
#![tactic(auto)]

// The first place of a site's outputs, of its out-queue, of its in-queues, of its counts; the places of a site.
pub const OUTPUTS_FROM: usize = base::INPUTS;

pub const LEAVING_FROM: usize = OUTPUTS_FROM + base::OUTPUTS;

pub const ARRIVED_FROM: usize = LEAVING_FROM + base::QUEUE;

pub const COUNTS_FROM: usize = ARRIVED_FROM + base::IN_QUEUES * base::QUEUE;

pub const SITE_PLACES: usize = COUNTS_FROM + 1 + base::IN_QUEUES;
// The counter's word, and how many words there are.
pub const COUNTER_AT: usize = 2 * (SITE_PLACES * base::SITES);

pub const WORDS: usize = COUNTER_AT + 1;
