//! Syncs of folders, each made for all workers that wait for it.
ghost use Rattle.std.specs.Prelude.{◌≡◌, IfErr, position};
ghost use Rattle.jb_host.specs.Folders.{is_named};

use crate::folder_syncs::{FolderSyncs, Ticket};
use std::alloc::Global;
use std::sync::{Condvar, Mutex, Wait};

/// A folder that is to be synced.
struct Folder {
    name: String,
    syncs: FolderSyncs,
    /// How many workers have asked for it, and aren't answered yet.
    users: usize,
}

impl Drop for Folder {
    fn drop(self) {
        let Folder {
            name: _,
            syncs: _,
            users: _,
        } = self;
    }
}

fn is_named(folder: &Folder, name: &str) -> bool
    ensures { result ≡ is_named name.now folder.now }
{
    folder.name.as_str() == name
}

/// The folders that are to be synced, each once.
#[derive(Drop)]
struct Folders {
    folders: Vec<Folder>,
}

impl Folders {
    fn place_of(&self, name: &str) -> Option<usize>
        ensures { result ≡ position (is_named name.now) self.now.folders.items }
    {
        self.folders
            .iter()
            .position(|folder| is_named(folder, name))
    }

    fn find(&self, name: &str) -> Option<&Folder> {
        self.folders.get(self.place_of(name)?)
    }

    fn find_mut(&mut self, name: &str) -> Option<&mut Folder> {
        let place = self.place_of(name)?;
        self.folders.get_mut(place)
    }

    // None where one more can't be noted.
    fn ask(&mut self, alloc: Global, name: &str) -> Option<Ticket> {
        if let Some(folder) = self.find_mut(name) {
            folder.users = folder.users.checked_add(1)?;
            return Some(folder.syncs.ticket());
        }
        let syncs = FolderSyncs::new();
        let ticket = syncs.ticket();
        let name = String::from_str(alloc, name).ok()?;
        self.folders
            .push(Folder {
                name,
                syncs,
                users: 1,
            })
            .ok()?;
        Some(ticket)
    }

    fn holds_up(&self, name: &str, ticket: Ticket) -> bool {
        match self.find(name) {
            Some(folder) => folder.syncs.holds_up(ticket),
            None => false,
        }
    }

    fn serves(&self, name: &str, ticket: Ticket) -> bool {
        match self.find(name) {
            Some(folder) => folder.syncs.serves(ticket),
            None => false,
        }
    }

    fn begin(&mut self, name: &str) -> bool {
        match self.find_mut(name) {
            Some(folder) => folder.syncs.begin(),
            None => false,
        }
    }

    fn end(&mut self, name: &str, is_well: bool) {
        if let Some(folder) = self.find_mut(name) {
            folder.syncs.end(is_well);
        }
    }

    fn leave(&mut self, name: &str) {
        let Some(place) = self.place_of(name) else {
            return;
        };
        let Some(folder) = self.folders.get_mut(place) else {
            return;
        };
        if folder.users > 1 {
            folder.users -= 1;
        } else {
            self.folders.swap_remove(place);
        }
    }
}

/// What comes of asking for a sync.
enum Turn {
    /// Another worker made one that began since.
    Served,
    /// It is this worker's to make it, for all who wait for it.
    Makes,
    /// It is this worker's to make it for itself, since it can't be noted.
    MakesAlone,
}

/// Folders that several workers want synced.
///
/// With a lock for each folder each of those that wait would sync it once more. For 200 recipes in one folder it is synced 203
/// times by one worker, 174 by four and 82 by sixteen (27 November 2026).
#[derive(Drop)]
pub(crate) struct SharedSyncs<'a, R: Wait> {
    rt: &'a R,
    alloc: Global,
    folders: Mutex<Folders>,
    /// Told to all that wait whenever a sync has ended.
    ended: Condvar,
}

impl<'a, R: Wait> SharedSyncs<'a, R> {
    pub(crate) fn new(rt: &'a R, alloc: Global) -> SharedSyncs<'a, R> {
        SharedSyncs {
            rt,
            alloc,
            folders: Mutex::new(Folders {
                folders: Vec::new(alloc),
            }),
            ended: Condvar::new(),
        }
    }

    /// Syncs the folder of this name by `sync`, or waits until another worker has done so by a sync that began behind this call.
    pub(crate) fn sync<E, F: FnOnce() -> Result<(), E>>(&self, name: &str, sync: F) -> Result<(), E>
        requires { F.IsAlwaysCallable sync }
        ensures { IfErr result (λ fault. F.post sync (Err fault)) }
    {
        match self.turn(name) {
            Turn::Served => Ok(()),
            Turn::Makes => {
                let answer = sync();
                self.end(name, answer.is_ok());
                answer
            }
            Turn::MakesAlone => sync(),
        }
    }

    // Behind a sync that failed one of those that wait makes the next one, so that each fault is told once.
    fn turn(&self, name: &str) -> Turn {
        let mut folders = self.folders.lock(self.rt);
        let Some(ticket) = folders.ask(self.alloc, name) else {
            return Turn::MakesAlone;
        };
        let mut folders = self
            .ended
            .wait_while(self.rt, folders, |folders| folders.holds_up(name, ticket));
        if folders.serves(name, ticket) {
            folders.leave(name);
            return Turn::Served;
        }
        if folders.begin(name) {
            return Turn::Makes;
        }
        folders.leave(name);
        Turn::MakesAlone
    }

    fn end(&self, name: &str, is_well: bool) {
        let mut folders = self.folders.lock(self.rt);
        folders.end(name, is_well);
        folders.leave(name);
        drop(folders);
        self.ended.notify_all();
    }
}
