//! Laws of the run of a scenario: what its scripts ask for may be asked, its releases can be planned, and its room is
//! enough. They are about the definitions alone.
ghost use Rattle.law_runs.specs.Runs.{ScriptsObey, ReleasesAreAccepted, RoomIsEnough};

/// In each legal history in which the operations are the scripts', the running job's next operation is declared, comes
/// after the quiet steps, and leaves no item unwritten: no script of a scenario is refused but for a lock.
pub fn scripts_obey()
    ensures { ScriptsObey }
{}

/// The fixed releases of a scenario can all be planned at tick 0.
pub fn releases_are_accepted()
    ensures { ReleasesAreAccepted }
{}

/// The room of a scenario is at least the number of entries of a run of its fixed releases.
pub fn room_is_enough()
    ensures { RoomIsEnough }
{}
