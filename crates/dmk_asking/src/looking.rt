//! Looks, over the files of this machine.
ghost use Rattle.std.specs.Prelude.{codes};
ghost use Rattle.dmk_reading.specs.Keeping.{value_in};
ghost use Rattle.dmk_reading.specs.Asked.{AsksToLook};

use crate::levels::HostLevels;
use crate::look::Look;
use crate::options_again::options_again;
use bd_lists::Variable;
use dmk_dry::drive;
use dmk_files::FileTexts;
use dmk_host::{
    HostFiles, HostTrees, base_asked, needs_usual_makefile, print_cure, print_gnu_makefile,
    print_notes, print_reasons,
};
use dmk_levels::kept_items;
use dmk_reading::{Mode, Options, value_of};
use dmk_taking::{Taking, take_known};
use mk_eval::Includes;
use mk_levels::{Level, told_known};
use mk_rules::Tree;
use st_disk::{Disk, FileDisk, SystemFolder, Which};
use st_file::read_whole;
use st_memory::MemDisk;
use st_records::HashKey;
use std::alloc::{AllocError, Global};
use std::io::Write;

/// Room for the fault of wanted memory, which has to be told where no more is to be had. Behind a fault of the disk stands which call on
/// the state failed, with the state's name.
const FAULT_BYTES: usize = 128;

/// What a look is made with.
#[derive(Drop)]
struct Room {
    folder: SystemFolder,
    levels: HostLevels,
    /// It has what -p prints, and room for a fault.
    look: Look,
}

/// What other levels know, and what a disk has, in memory.
fn read_beside<W: Write, D: Disk>(
    alloc: Global,
    levels: &HostLevels,
    err: &mut W,
    disk: &mut D,
) -> Option<(Vec<Level>, MemDisk)> {
    let levels = levels.read(err).ok()?;
    let a = read_whole(alloc, disk, Which::A).ok()?;
    let b = read_whole(alloc, disk, Which::B).ok()?;
    let memory = MemDisk::holding(alloc, &a, &b).ok()?;
    Some((levels, memory))
}

impl Room {
    fn of(
        host: HostRuntime,
        options: &Options,
        environment: &[Variable],
        makefiles: &mut FileTexts<HostFiles<'_>>,
    ) -> Result<Room, AllocError> {
        let alloc = host.alloc();
        let folder = SystemFolder::new(host, alloc, options.state.as_str())?;
        let levels = HostLevels::of(host, options, environment)?;
        let err = Vec::with_capacity(alloc, FAULT_BYTES.saturating_add(options.state.len()))?;
        let out = base_asked(host, options, environment, makefiles)?;
        let look = Look {
            status: 0,
            before: out.len(),
            out,
            err,
            cure: None,
            always: Vec::new(alloc),
        };
        Ok(Room {
            folder,
            levels,
            look,
        })
    }
}

impl Look {
    /// Looks with this room.
    fn with(
        host: HostRuntime,
        options: Options,
        environment: &[Variable],
        makefiles: &mut FileTexts<HostFiles<'_>>,
        room: Room,
    ) -> Result<Look, AllocError>
        requires { AsksToLook options (value_in environment.now (codes "MAKEFLAGS")) }
    {
        let is_usual = needs_usual_makefile(&options);
        let profile = options.profile;
        let Room {
            folder,
            levels,
            mut look,
        } = room;
        let trees = match HostTrees::of(host, &options) {
            Ok(trees) => trees,
            Err(error) => {
                drop(options);
                drop(levels);
                drop(look);
                return Err(error);
            }
        };
        let before = trees.tree();
        let tree = trees.tree();
        let disk = FileDisk::new(folder);
        let (is_told, disk) = look.take_behind(
            host,
            options,
            environment,
            &levels,
            before,
            tree,
            makefiles,
            disk,
        );
        drop(levels);
        let state = disk.folder.name(Which::A);
        print_cure(host, &mut look.err, profile, state, look.cure);
        print_notes(host.alloc(), &mut look.err, makefiles);
        print_reasons(&mut look.err, makefiles, &disk);
        drop(disk);
        let is_wanted = is_usual && look.is_fault();
        print_gnu_makefile(host, &mut look.err, is_wanted);
        // A vector takes a line as long as there is memory.
        if is_told {
            return Ok(look);
        }
        drop(look);
        Err(AllocError)
    }

    /// Takes what is listed or answered behind a taking over of what other levels know, which writes nothing: it is made over a disk in
    /// memory. Whether all was told, and the disk.
    ///
    /// The parts of this machine are of any types here: made concrete once, at the call.
    fn take_behind<T: Tree + Drop, I: Includes, D: Disk>(
        &mut self,
        host: HostRuntime,
        options: Options,
        environment: &[Variable],
        levels: &HostLevels,
        before: T,
        tree: T,
        makefiles: &mut I,
        disk: D,
    ) -> (bool, D)
        requires { AsksToLook options (value_in environment.now (codes "MAKEFLAGS")) }
    {
        let mut disk = disk;
        let mut before = before;
        let taken = if levels.is_empty() {
            None
        } else {
            self.take_known(
                host,
                &options,
                environment,
                levels,
                &mut before,
                makefiles,
                &mut disk,
            )
        };
        drop(before);
        match taken {
            Some(memory) => {
                let (is_told, memory) = self.take(
                    host,
                    options,
                    environment,
                    tree,
                    makefiles,
                    memory,
                );
                drop(memory);
                (is_told, disk)
            }
            None => self.take(host, options, environment, tree, makefiles, disk),
        }
    }

    /// The state's disk with what is taken over from other levels, in memory; None where nothing is. What is to be told of it stands in front
    /// of the listing.
    fn take_known<T: Tree, I: Includes, D: Disk>(
        &mut self,
        host: HostRuntime,
        options: &Options,
        environment: &[Variable],
        levels: &HostLevels,
        tree: &mut T,
        makefiles: &mut I,
        disk: &mut D,
    ) -> Option<MemDisk> {
        let alloc = host.alloc();
        let items = kept_items(alloc, environment, options, tree, makefiles)?;
        let read = read_beside(alloc, levels, &mut self.err, disk);
        let Some((levels, memory)) = read else {
            drop(items);
            return None;
        };
        let (found, memory) = take_known(
            alloc,
            HashKey::from_system(&host),
            environment,
            options,
            &levels,
            tree,
            makefiles,
            items,
            memory,
        );
        let Ok(Taking::Taken(records)) = found else {
            drop(memory);
            return None;
        };
        let text = told_known(alloc, options.telling, &levels, &records).ok()?;
        self.out.extend_from_slice(&text).ok()?;
        self.before = self.out.len();
        Some(memory)
    }

    /// Takes what is listed or answered. Whether all was told, and the disk.
    ///
    /// The parts of this machine are of any types here: made concrete once, at the call.
    fn take<T: Tree + Drop, I: Includes, D: Disk>(
        &mut self,
        host: HostRuntime,
        options: Options,
        environment: &[Variable],
        tree: T,
        makefiles: &mut I,
        disk: D,
    ) -> (bool, D)
        requires { AsksToLook options (value_in environment.now (codes "MAKEFLAGS")) }
    {
        let mut tree = tree;
        let (reply, disk, always) = drive(
            host.alloc(),
            HashKey::from_system(&host),
            options,
            environment,
            &mut tree,
            makefiles,
            disk,
            &mut self.out,
            &mut self.err,
        );
        drop(tree);
        self.status = reply.status;
        self.cure = reply.cure;
        self.always = always;
        (reply.is_told, disk)
    }

    /// Looks once.
    pub(crate) fn of(
        host: HostRuntime,
        options: Options,
        environment: &[Variable],
        makefiles: &mut FileTexts<HostFiles<'_>>,
    ) -> Result<Look, AllocError>
        requires { AsksToLook options (value_in environment.now (codes "MAKEFLAGS")) }
    {
        match Room::of(host, &options, environment, makefiles) {
            Ok(room) => Look::with(host, options, environment, makefiles, room),
            Err(error) => {
                drop(options);
                Err(error)
            }
        }
    }

    /// Looks, unless a run is asked for.
    fn if_asked(
        host: HostRuntime,
        options: Options,
        environment: &[Variable],
        makefiles: &mut FileTexts<HostFiles<'_>>,
    ) -> Result<Option<Look>, AllocError> {
        match options.mode(value_of(environment, b"MAKEFLAGS")) {
            Mode::Run => Ok(None),
            Mode::DryRun | Mode::Question => {
                Ok(Some(Look::of(host, options, environment, makefiles)?))
            }
        }
    }

    /// Looks once more, for what the words ask. Files are read anew, and no command is run that was run.
    fn again(
        host: HostRuntime,
        environment: &[Variable],
        makefiles: &mut FileTexts<HostFiles<'_>>,
    ) -> Result<Option<Look>, AllocError> {
        makefiles.forget_texts(host.alloc());
        match options_again(host, environment)? {
            Some(options) => Look::if_asked(host, options, environment, makefiles),
            None => Ok(None),
        }
    }

    /// The look behind this one, and whether nothing more is to be looked for: it came to the same, or is this one.
    pub(crate) fn looked_again(
        self,
        host: HostRuntime,
        environment: &[Variable],
        makefiles: &mut FileTexts<HostFiles<'_>>,
    ) -> Result<(Look, bool), AllocError> {
        match Look::again(host, environment, makefiles) {
            Ok(Some(again)) => {
                let is_same = self.is_same(&again);
                drop(self);
                Ok((again, is_same))
            }
            Ok(None) => Ok((self, true)),
            Err(error) => {
                drop(self);
                Err(error)
            }
        }
    }
}
