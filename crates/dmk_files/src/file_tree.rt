//! Looks at files by the system's calls, one a name.
ghost use Rattle.std.specs.Prelude.{◌≡◌, ◌<◌, ◌⊎◌, ℕ, length, true, false, List, Option, Some, None, IfOk, IfErr, IsOk, IsErr, IsSome};
ghost use Rattle.std.specs.IoError.{error_kind};
ghost use Rattle.mk_names.specs.Names.{name_at, has_name};
ghost use Rattle.dmk_files.specs.Stamps.{names_of, known_stamp, AgreesWith, IsSaid};
ghost use Rattle.mk_sources.specs.Tree.{IsTreeFault};
ghost use Rattle.dmk_files.specs.Files.{IsMissing, look_of};
ghost use Rattle.mk_nodes.specs.declared.file_look.FileLook.{FileLook};

use crate::file_calls::{FileCalls, FileStatus};
use crate::stamps::Stamps;
use mk_nodes::FileLook;
use mk_sources::{Tree, TreeFault};
use std::alloc::{AllocError, Global};
use std::io::{self, ErrorKind};

/// The files of the current folder. What was answered of a name holds from then on.
pub struct FileTree<C: FileCalls + Drop> {
    calls: C,
    stamps: Stamps,
}

impl<C: FileCalls + Drop> Drop for FileTree<C> {
    fn drop(self) {
        let FileTree {
            calls: _,
            stamps: _,
        } = self;
    }
}

/// Whether an error says that no file has the name.
///
/// A name below a file, or one that is too long, is no file's. One report that names such would else end every later run.
fn is_missing(error: &io::Error) -> bool
    ensures missing { result ≡ true → IsMissing (error_kind error.now) }
    ensures others { result ≡ false → IsMissing (error_kind error.now) → ⊥ }
{
    let kind = error.kind();
    kind == ErrorKind::NotFound
        || kind == ErrorKind::NotADirectory
        || kind == ErrorKind::InvalidFilename
}

/// What an error of looking at a name says: that there is no file, or that it can't be told.
fn refused_look(error: &io::Error) -> Result<Option<FileLook>, TreeFault>
    ensures missing { IsMissing (error_kind error.now) → result ≡ Ok None }
    ensures others { (IsMissing (error_kind error.now) → ⊥) → IsErr result }
    ensures told { IfOk result (λ look. (look ≡ None) × IsMissing (error_kind error.now)) }
    ensures fault { IfErr result (IsTreeFault (Unit {0})) }
{
    if is_missing(error) {
        return Ok(None);
    }
    match error.kind() {
        ErrorKind::OutOfMemory => Err(TreeFault::OutOfMemory),
        _ => Err(TreeFault::CannotLook),
    }
}

/// A look at a file by what the system says of it.
fn stamp_of(answer: io::Result<FileStatus>) -> Result<Option<FileLook>, TreeFault>
    ensures look { IfOk answer (λ status. result ≡ Ok (Some (look_of status))) }
    ensures missing { IfErr answer (λ error. IsMissing (error_kind error) → result ≡ Ok None) }
    ensures others { IfErr answer (λ error. (IsMissing (error_kind error) → ⊥) → IsErr result) }
    ensures told { IfOk result (λ look. IfOk answer (λ status. look ≡ Some (look_of status))
        × IfErr answer (λ error. (look ≡ None) × IsMissing (error_kind error))) }
    ensures fault { IfErr result (IsTreeFault (Unit {0})) }
{
    match answer {
        Ok(status) => Ok(Some(status.look())),
        Err(error) => refused_look(&error),
    }
}

/// What the system says of a name.
fn look_by<C: FileCalls>(calls: &mut C, name: &[u8]) -> Result<Option<FileLook>, TreeFault>
    ensures said { IfOk result (C.says name.now) }
    ensures fault { IfErr result (IsTreeFault (Unit {0})) }
{
    let Ok(name) = std::str::from_utf8(name) else {
        return Err(TreeFault::CannotLook);
    };
    if calls.is_taken_as_old(name) {
        return Ok(Some(FileLook::taken_as_old()));
    }
    stamp_of(calls.status(name))
}

impl<C: FileCalls + Drop> FileTree<C> {
    /// Nothing is known yet of any name.
    pub fn new(alloc: Global, calls: C) -> FileTree<C>
        ensures none { (name : List ℕ) → known_stamp result.stamps name ≡ None }
        ensures said { IsSaid C.says result.stamps }
    {
        FileTree {
            calls,
            stamps: Stamps::new(alloc),
        }
    }

    /// What a look at this name tells. The system is asked where the name isn't known.
    fn look_at(
        &mut self,
        alloc: Global,
        name: &[u8],
        number: usize,
    ) -> Result<Option<FileLook>, TreeFault>
        requires number { number < length (names_of self.old.stamps) }
        requires name { name_at (names_of self.old.stamps) number ≡ name.now }
        ensures stamp { IfOk result (λ stamp. (looks : List ℕ → Option FileLook) → AgreesWith self.new.stamps looks → stamp ≡ looks name.now) }
        ensures grows { (looks : List ℕ → Option FileLook) → AgreesWith self.new.stamps looks → AgreesWith self.old.stamps looks }
        ensures said { IsSaid C.says self.old.stamps → IsSaid C.says self.new.stamps }
        ensures known { IsSome (known_stamp self.old.stamps name.now) → self.new ≡ self.old }
        ensures found { IsSome (known_stamp self.old.stamps name.now) → IsOk result }
        ensures listed { self.new.stamps.listed ≡ self.old.stamps.listed }
        ensures fault { IfErr result (IsTreeFault (Unit {0})) }
    {
        if let Some(known) = self.stamps.get(number) {
            return Ok(known);
        }
        let stamp = look_by(&mut self.calls, name)?;
        match self.stamps.set(alloc, number, stamp) {
            Ok(()) => Ok(stamp),
            Err(_) => Err(TreeFault::OutOfMemory),
        }
    }

    /// A look at any name.
    fn look(&mut self, alloc: Global, name: &[u8]) -> Result<Option<FileLook>, TreeFault>
        ensures stamp { IfOk result (λ stamp. (looks : List ℕ → Option FileLook) → AgreesWith self.new.stamps looks → stamp ≡ looks name.now) }
        ensures grows { (looks : List ℕ → Option FileLook) → AgreesWith self.new.stamps looks → AgreesWith self.old.stamps looks }
        ensures said { IsSaid C.says self.old.stamps → IsSaid C.says self.new.stamps }
        ensures known { IsSome (known_stamp self.old.stamps name.now) → self.new.calls ≡ self.old.calls }
        ensures listed { (n : List ℕ) → has_name self.new.stamps.listed n ≡ true → has_name self.old.stamps.listed n ≡ true }
        ensures fault { IfErr result (IsTreeFault (Unit {0})) }
    {
        let Ok(number) = self.stamps.numbered(alloc, name) else {
            return Err(TreeFault::OutOfMemory);
        };
        self.look_at(alloc, name, number)
    }

    /// A look at a name that is new.
    fn new_look(&mut self, alloc: Global, name: &[u8]) -> Result<Option<FileLook>, TreeFault>
        requires no_found { has_name self.old.stamps.found name.now ≡ false }
        requires no_listed { has_name self.old.stamps.listed name.now ≡ false }
        ensures stamp { IfOk result (λ stamp. (looks : List ℕ → Option FileLook) → AgreesWith self.new.stamps looks → stamp ≡ looks name.now) }
        ensures grows { (looks : List ℕ → Option FileLook) → AgreesWith self.new.stamps looks → AgreesWith self.old.stamps looks }
        ensures said { IsSaid C.says self.old.stamps → IsSaid C.says self.new.stamps }
        ensures listed { (n : List ℕ) → has_name self.new.stamps.listed n ≡ true → (has_name self.old.stamps.listed n ≡ true) ⊎ (n ≡ name.now) }
        ensures fault { IfErr result (IsTreeFault (Unit {0})) }
    {
        let look = look_by(&mut self.calls, name)?;
        match self.stamps.list(alloc, name, look) {
            Ok(()) => Ok(look),
            Err(_) => Err(TreeFault::OutOfMemory),
        }
    }

    /// A look at a name that isn't listed yet.
    fn first_look(&mut self, alloc: Global, name: &[u8]) -> Result<Option<FileLook>, TreeFault>
        requires { has_name self.old.stamps.listed name.now ≡ false }
        ensures stamp { IfOk result (λ stamp. (looks : List ℕ → Option FileLook) → AgreesWith self.new.stamps looks → stamp ≡ looks name.now) }
        ensures grows { (looks : List ℕ → Option FileLook) → AgreesWith self.new.stamps looks → AgreesWith self.old.stamps looks }
        ensures said { IsSaid C.says self.old.stamps → IsSaid C.says self.new.stamps }
        ensures known { IsSome (known_stamp self.old.stamps name.now) → self.new ≡ self.old }
        ensures found { IsSome (known_stamp self.old.stamps name.now) → IsOk result }
        ensures listed { (n : List ℕ) → has_name self.new.stamps.listed n ≡ true → (has_name self.old.stamps.listed n ≡ true) ⊎ (n ≡ name.now) }
        ensures fault { IfErr result (IsTreeFault (Unit {0})) }
    {
        match self.stamps.found_number(name) {
            Some(number) => self.look_at(alloc, name, number),
            None => self.new_look(alloc, name),
        }
    }
}

impl<C: FileCalls + Drop> Tree for FileTree<C> {
    ghost use Rattle.std.specs.Prelude.{unwrap_or};
    ghost use Rattle.dmk_files.specs.Fits.{some_fit};

    ghost allows = { λ tree looks. AgreesWith tree.stamps looks };

    ghost refuses = { λ _ _. Unit {0} };

    ghost firsts = { λ tree name. has_name tree.stamps.listed name ≡ true };

    fn stamp(&mut self, alloc: Global, name: &[u8]) -> Result<Option<FileLook>, TreeFault> {
        self.look(alloc, name)
    }

    fn first_stamp(&mut self, alloc: Global, name: &[u8]) -> Result<Option<FileLook>, TreeFault> {
        self.first_look(alloc, name)
    }

    fn begin(&mut self, alloc: Global, expected: usize) -> Result<(), AllocError> {
        self.stamps.find_listed(alloc, expected)
    }

    ghost possible = { λ tree. (
      λ name. unwrap_or (known_stamp tree.stamps name) None,
      some_fit (known_stamp tree.stamps) None,
    ) };
}
