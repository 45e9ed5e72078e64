// What a net-input's state, a connection and a terminator tell: those tests of specs/Phases.antt that several crates
// make.
ghost use Rattle.std.specs.Prelude.{◌≡◌};
ghost use Rattle.types.specs.Phases.{is_free, splits, is_none};

use crate::{Connection, Phase, Terminator};

// Whether a net-input is free.
pub fn is_free(phase: Phase) -> bool
    ensures { result ≡ is_free phase }
{
    matches!(phase, Phase::Free)
}

// Whether a connection is all-remote or some-local: 3 or 4.
pub fn is_split(connection: Connection) -> bool
    ensures { result ≡ splits connection }
{
    matches!(connection, Connection::AllRemote | Connection::SomeLocal)
}

// Whether a terminator is none.
pub fn is_none(terminator: Terminator) -> bool
    ensures { result ≡ is_none terminator }
{
    matches!(terminator, Terminator::None)
}
