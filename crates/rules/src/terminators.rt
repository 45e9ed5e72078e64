// The terminator table, and what a net-input gives its outputs by it.
ghost use Rattle.std.specs.Prelude.{◌≡◌};
ghost use Rattle.model.specs.NetInput as rule;
ghost use Rattle.rules.specs.Turns.{table_cell, table_row, given_at};

use crate::phases::with_terminator;
use types::{Connection, Output, Received, Terminator};

// What the table gives: to the other outputs, and to output 0.
#[derive(Clone, Copy)]
struct Cell {
    remote: Terminator,
    local: Terminator,
}

const ENDS: Cell = Cell {
    remote: Terminator::End,
    local: Terminator::End,
};

const ABORTS: Cell = Cell {
    remote: Terminator::Abort,
    local: Terminator::Abort,
};

// The terminator table: a row for each received kind, end and abort, in it a cell for each connection, unicast, passthru,
// all-remote, some-local, handed and branch.
const TABLE: [[Cell; 6]; 2] = [
    [
        ENDS,
        ENDS,
        Cell {
            remote: Terminator::End,
            local: Terminator::Abort,
        },
        Cell {
            remote: Terminator::End,
            local: Terminator::KeepLocal,
        },
        ENDS,
        ENDS,
    ],
    [ABORTS; 6],
];

// The table's cell for a received kind and a connection.
fn cell_of(received: Received, connection: Connection) -> Cell
    ensures { result ≡ table_cell received connection }
{
    TABLE[received as usize][connection as usize]
}

// The terminators that the table gives the outputs 0 to 5.
pub(crate) fn terminators(received: Received, connection: Connection) -> [Terminator; base::OUTPUTS]
    ensures { result ≡ table_row received connection }
{
    let cell = cell_of(received, connection);
    let mut row = [cell.remote; base::OUTPUTS];
    row[0] = cell.local;
    row
}

// Each output that is marked gets its terminator.
pub(crate) fn give_terminators(
    outputs: [Output; base::OUTPUTS],
    marks: [bool; base::OUTPUTS],
    given: [Terminator; base::OUTPUTS],
) -> [Output; base::OUTPUTS]
    ensures { result ≡ rule.give (given_at given) marks outputs }
{
    let mut next = outputs;
    for (j, marked) in marks.iter().enumerate() {
        if *marked {
            next[j] = with_terminator(outputs[j], given[j]);
        }
    }
    next
}
