//! What holds of the definitions alone. Nothing here runs: each body is empty.
ghost use Rattle.std.specs.Prelude.{◌<◌, List};
ghost use Rattle.jb_host.specs.Syncs.{Event, Follows, HasWholeSync};
ghost use Rattle.jb_host.specs.declared.folder_syncs.FolderSyncs.{FolderSyncs};

/// A ticket is served just where, among all that happened to the folder since it was taken, a sync began and ended well. So none serves
/// it that ran already, and none that failed.
pub fn served_by_later_syncs()
    ensures only { (start now : FolderSyncs) (events : List Event) → Follows start events now
        → start.begun < now.ended → HasWholeSync events }
    ensures each { (start now : FolderSyncs) (events : List Event) → Follows start events now
        → HasWholeSync events → start.begun < now.ended }
{}
