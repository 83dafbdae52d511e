//! What a disk over two files knows of one of them.
ghost use Rattle.std.specs.Prelude.{◌≡◌, false};
ghost use Rattle.st_disk.specs.declared.open_side.Found.TheVariants.{NotAsked};

/// What is known of a file. One that was found missing is made by its first write, and until then not looked for again.
#[derive(Drop)]
pub(crate) enum Found<T: Drop> {
    NotAsked,
    Missing,
    There(T),
}

/// A side's file. After a write, a cut or a sync that failed, no call of the folder is made any more: the system may
/// have let go of what it couldn't write, and say of a later sync that it went well.
pub(crate) struct OpenSide<T: Drop> {
    pub(crate) found: Found<T>,
    pub(crate) name_synced: bool,
    pub(crate) failed: bool,
}

impl<T: Drop> Drop for OpenSide<T> {
    fn drop(self) {
        let OpenSide {
            found: _,
            name_synced: _,
            failed: _,
        } = self;
    }
}

impl<T: Drop> OpenSide<T> {
    pub(crate) fn new() -> Self
        ensures { result ≡ record { found = NotAsked; name_synced = false; failed = false } }
    {
        OpenSide {
            found: Found::NotAsked,
            name_synced: false,
            failed: false,
        }
    }
}
