// What a net-input's state and a terminator tell: the model's case functions, each as a full match or by `matches!`.
ghost use Rattle.std.specs.Prelude.{◌≡◌};
ghost use Rattle.types.specs.Phases.{branches, connected, splitting, branching, aborting, is_keep};

use types::{Connection, Phase, Terminator};

// All but free and seek: the states with a connection.
pub(crate) fn is_connected(phase: Phase) -> bool
    ensures { result ≡ connected phase }
{
    !matches!(phase, Phase::Free | Phase::Seek)
}

// The states with connection 3 or 4.
pub(crate) fn is_splitting(phase: Phase) -> bool
    ensures { result ≡ splitting phase }
{
    match phase {
        Phase::Free | Phase::Seek => false,
        Phase::Open(c) | Phase::Wait(c) | Phase::Abort(c) => types::is_split(c),
        Phase::Done(c, _) | Phase::Last(c, _) | Phase::FinAbort(c, _) => types::is_split(c),
    }
}

// Connection 6.
fn is_branch(connection: Connection) -> bool
    ensures { result ≡ branches connection }
{
    matches!(connection, Connection::Branch)
}

// The states with it.
pub(crate) fn is_branching(phase: Phase) -> bool
    ensures { result ≡ branching phase }
{
    match phase {
        Phase::Free | Phase::Seek => false,
        Phase::Open(c) | Phase::Wait(c) | Phase::Abort(c) => is_branch(c),
        Phase::Done(c, _) | Phase::Last(c, _) | Phase::FinAbort(c, _) => is_branch(c),
    }
}

// Abort and fin-abort.
pub(crate) fn is_aborting(phase: Phase) -> bool
    ensures { result ≡ aborting phase }
{
    matches!(phase, Phase::Abort(_) | Phase::FinAbort(_, _))
}

pub(crate) fn is_keep(terminator: Terminator) -> bool
    ensures { result ≡ is_keep terminator }
{
    matches!(terminator, Terminator::KeepLocal)
}
