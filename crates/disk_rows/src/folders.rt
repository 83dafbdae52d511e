//! Calls of a disk over two files: which calls it makes of its folder, and what it answers where one of them fails.
ghost use Rattle.std.specs.Prelude.{◌≡◌, true};
ghost use Rattle.st_disk.specs.declared.which.Which.TheVariants.{A, B};

use crate::disks::fails_one;
use crate::script::answers;
use crate::twin::Twin;
use row_files::{RowFault, Words, bytes};
use st_disk::{FileDisk, Folder, Which};
use st_doubles::{FailsOne, FaultyFolder, MemFolder};
use st_memory::MemDisk;
use std::alloc::{AllocError, Global};

type Tried<F> = FileDisk<FaultyFolder<F, FailsOne>>;

/// A folder of which something is said once the calls are made.
trait Shown {
    fn say(&self, said: &mut String) -> Result<(), AllocError>;
}

/// The calls that it passed.
impl Shown for Twin {
    fn say(&self, said: &mut String) -> Result<(), AllocError> {
        said.push_str(self.log.as_str())
    }
}

/// What its first file holds.
impl Shown for MemFolder<MemDisk> {
    fn say(&self, said: &mut String) -> Result<(), AllocError> {
        said.push(' ')?;
        bytes::say_all(said, self.disk.bytes(Which::A))
    }
}

/// Answers a call: which files the folder has, how many calls of it pass before one fails, and a script.
pub fn call_folder(
    alloc: Global,
    said: &mut String,
    words: &mut Words<'_>,
) -> Result<(), RowFault> {
    match words.next() {
        "there" => twin(alloc, said, Some(6), words),
        "missing" => twin(alloc, said, None, words),
        "memory" => memory(alloc, said, words),
        _ => Err(RowFault::Word),
    }
}

/// Where `is_short` is so, a write that fails is made.
fn over<F: Folder + Drop>(inner: F, passing: usize, is_short: bool) -> Tried<F>
    requires { F.honest → (F.sound inner A ≡ true) × (F.sound inner B ≡ true) }
{
    FileDisk::new(FaultyFolder {
        inner,
        plan: fails_one(passing),
        short: is_short,
    })
}

/// The answers, and what is said of the folder then.
fn say_tried<F: Folder + Drop + Shown>(
    said: &mut String,
    disk: &mut Tried<F>,
    script: &str,
) -> Result<(), RowFault> {
    answers(said, disk, script)?;
    Ok(disk.folder.inner.say(said)?)
}

fn tried<F: Folder + Drop + Shown>(
    said: &mut String,
    inner: F,
    passing: usize,
    is_short: bool,
    script: &str,
) -> Result<(), RowFault>
    requires { F.honest → (F.sound inner A ≡ true) × (F.sound inner B ≡ true) }
{
    let mut disk = over(inner, passing, is_short);
    let answered = say_tried(said, &mut disk, script);
    drop(disk);
    answered
}

fn twin(
    alloc: Global,
    said: &mut String,
    len: Option<usize>,
    words: &mut Words<'_>,
) -> Result<(), RowFault> {
    let passing = words.number()?;
    tried(said, Twin::new(alloc, len), passing, false, words.rest)
}

fn without_files(alloc: Global) -> MemFolder<MemDisk> {
    MemFolder::without_files(MemDisk::new(alloc))
}

/// Over two missing files in memory.
fn memory(alloc: Global, said: &mut String, words: &mut Words<'_>) -> Result<(), RowFault> {
    let passing = words.number()?;
    tried(said, without_files(alloc), passing, true, words.rest)
}
