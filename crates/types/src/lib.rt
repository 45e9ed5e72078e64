// The types (document 01, "Network and state", with what L4, L6 and L10 add), and the document's number for each case of an enum.
// First variants are the zero ones. specs/ has the numbers and what a state and a terminator tell; document 01's other
// definitions over these types are in crate model.
#![tactic(auto)]

mod phases;

ghost use Rattle.std.specs.Prelude.{◌≡◌};
ghost use Rattle.types.specs.Numbers.{state_number, connection_number, received_number, terminator_number};

pub use phases::{is_free, is_none, is_split};

// How a net-input is connected to its outputs; 0 is none, which is no variant: free and seek have no connection.
#[derive(Clone, Copy)]
pub enum Connection {
    Unicast,
    Passthru,
    AllRemote,
    SomeLocal,
    Handed,
    Branch,
}

// A terminator that a net-input received.
#[derive(Clone, Copy)]
pub enum Received {
    End,
    Abort,
}

// A terminator that an output or an in-queue entry holds.
#[derive(Clone, Copy)]
pub enum Terminator {
    None,
    End,
    Abort,
    KeepLocal,
}

// A net-input's state, with the connection and the received terminator of those states that have one.
#[derive(Clone, Copy)]
pub enum Phase {
    Free,
    Seek,
    Open(Connection),
    Wait(Connection),
    Done(Connection, Received),
    Last(Connection, Received),
    Abort(Connection),
    FinAbort(Connection, Received),
}

// A net-input. outputs marks the connected ones.
#[derive(Clone, Copy)]
pub struct Input {
    pub set: u64,
    pub phase: Phase,
    pub outputs: [bool; base::OUTPUTS],
    pub packet: u8,
    pub tries: u8,
}

// A net-output. input is the net-input that feeds it; head tells whether its head is taken; closing whether its terminator is
// delivered and its channel still held.
#[derive(Clone, Copy)]
pub struct Output {
    pub set: u64,
    pub terminator: Terminator,
    pub packet: u8,
    pub input: u8,
    pub used: bool,
    pub head: bool,
    pub closing: bool,
}

#[derive(Clone, Copy)]
pub struct OutEntry {
    pub set: u64,
    pub packet: u8,
    pub started: bool,
}

#[derive(Clone, Copy)]
pub struct InEntry {
    pub set: u64,
    pub terminator: Terminator,
    pub packet: u8,
}

// A queue: its entries from the front, and how many there are. (Two structs and no generic one: the kit's guide asks that a
// generic struct hold no array of a type parameter, since a call through another type owes a bound of its size. The count
// stays: room behind it is part of the state, which `in_range` looks at.)
#[derive(Clone, Copy)]
pub struct OutQueue {
    pub entries: [OutEntry; base::QUEUE],
    pub count: usize,
}

#[derive(Clone, Copy)]
pub struct InQueue {
    pub entries: [InEntry; base::QUEUE],
    pub count: usize,
}

// A site: its net-outputs are 0 to 4 and the split output, its in-queues that of output 0 and that of the split output.
#[derive(Clone, Copy)]
pub struct Site {
    pub inputs: [Input; base::INPUTS],
    pub outputs: [Output; base::OUTPUTS],
    pub outgoing: OutQueue,
    pub incoming: [InQueue; base::IN_QUEUES],
}

#[derive(Clone, Copy)]
pub struct State {
    pub sites: [Site; base::SITES],
    pub counter: u8,
}

// A network: the stored version and the edition of the rules that it goes by (numbers and no enums: `checks::network_refusal` takes
// any, and answers 2 and 17); S, T, D; a channel for each site and port 1 to
// 4; a route for each from-site and to-site, in rows of S.
#[derive(Clone, Copy)]
pub struct Network {
    pub sites: usize,
    pub depth: usize,
    pub tries: u8,
    pub version: u8,
    pub edition: u8,
    pub channels: [u16; base::PORTS * base::SITES],
    pub routes: [u16; base::SITES * base::SITES],
}

// A send as a run stores it: applied before draw number `draw`.
#[derive(Clone, Copy)]
pub struct StoredSend {
    pub set: u64,
    pub draw: u16,
    pub site: u8,
}

// A stored run: the first `count` of its sends.
#[derive(Clone, Copy)]
pub struct Run {
    pub network: Network,
    pub seed: u32,
    pub draws: u16,
    pub count: usize,
    pub sends: [StoredSend; base::SENDS],
}

// The answer of SEND: the packet number, or why it is turned down. (No Result: SEND and RUN answer alike.)
#[derive(Clone, Copy)]
pub enum Sent {
    Accepted(u8),
    Refused(u8),
}

// The answer of RUN: 0, 1, 2 with packet and site, or why it is turned down. (No Result: `machine::enter_answer` takes an answer
// with any number for its refusal, and `enter_answer_settled` says so of each.)
#[derive(Clone, Copy)]
pub enum Ran {
    Nothing,
    Changed,
    Serviced(u8, u8),
    Refused(u8),
}

#[derive(Clone, Copy)]
pub struct AfterSend {
    pub answer: Sent,
    pub state: State,
}

// RUN's answer, the outputs that stand in the packet's way where the router failed, and the next state.
#[derive(Clone, Copy)]
pub struct AfterRun {
    pub answer: Ran,
    pub blocking: u64,
    pub state: State,
}

// The same of a RUN that leaves the next state in lent words.
#[derive(Clone, Copy)]
pub struct RunAnswer {
    pub answer: Ran,
    pub blocking: u64,
}

// What the player counts over a run.
#[derive(Clone, Copy)]
pub struct Counts {
    pub accepted: usize,
    pub pairs: usize,
    pub serviced: usize,
    pub owed: usize,
}

// (The numbers are functions and no From: docs/CONTRACTS.md names them, and `state_number_settled` and the like are about them.)
// The state number of a net-input: 0 free, 1 seek, 2 open, 3 wait, 4 done, 5 last, 6 abort, 7 fin-abort.
pub fn state_number(phase: Phase) -> u8
    ensures { result ≡ state_number phase }
{
    match phase {
        Phase::Free => 0,
        Phase::Seek => 1,
        Phase::Open(_) => 2,
        Phase::Wait(_) => 3,
        Phase::Done(_, _) => 4,
        Phase::Last(_, _) => 5,
        Phase::Abort(_) => 6,
        Phase::FinAbort(_, _) => 7,
    }
}

// The number of a connection: 1 unicast, 2 passthru, 3 all-remote, 4 some-local, 5 handed, 6 branch.
pub fn connection_number(connection: Connection) -> u8
    ensures { result ≡ connection_number connection }
{
    match connection {
        Connection::Unicast => 1,
        Connection::Passthru => 2,
        Connection::AllRemote => 3,
        Connection::SomeLocal => 4,
        Connection::Handed => 5,
        Connection::Branch => 6,
    }
}

// The number of a received terminator: 1 end, 2 abort.
pub fn received_number(received: Received) -> u8
    ensures { result ≡ received_number received }
{
    match received {
        Received::End => 1,
        Received::Abort => 2,
    }
}

// The number of a terminator: 0 none, 1 end, 2 abort, 3 keep-local.
pub fn terminator_number(terminator: Terminator) -> u8
    ensures { result ≡ terminator_number terminator }
{
    match terminator {
        Terminator::None => 0,
        Terminator::End => 1,
        Terminator::Abort => 2,
        Terminator::KeepLocal => 3,
    }
}
