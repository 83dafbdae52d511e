//! A folder in memory, whose files and texts are told as they stand.
ghost use Rattle.std.specs.Prelude.{◌≡◌, ℕ, List, [], None, find, bytes_eq, length, option_map, option_copied, refl};
ghost use Rattle.run_doubles.specs.Looks.{look_at};

use byte_strings::ByteStrings;
use mk_eval::Includes;
use mk_nodes::FileLook;
use mk_profile::Profile;
use mk_reader::Statement;
use mk_rules::{Tree, TreeFault};
use std::alloc::{AllocError, Global};
use std::rc::Rc;

/// A file's name, its time and its text.
pub type File = (&'static str, i128, &'static str);

/// Files, and how often a text was asked for.
#[derive(Drop)]
pub struct Folder {
    pub files: &'static [File],
    pub reads: usize,
}

impl Folder {
    /// A folder of these files, of which none was asked for.
    pub fn new(files: &'static [File]) -> Folder {
        Folder { files, reads: 0 }
    }
}

/// The first file of this name.
fn find_file(files: &'static [File], name: &[u8]) -> Option<File>
    ensures { result ≡ find (λ file. bytes_eq file.0.now name.now) files.now }
{
    files.iter().copied().find(|file| file.0.as_bytes() == name)
}

fn text_of(files: &'static [File], name: &[u8]) -> Option<&'static [u8]>
    ensures { option_copied result
        ≡ option_map (λ file. file.2.now) (find (λ file. bytes_eq file.0.now name.now) files.now) }
{
    match find_file(files, name) {
        Some(file) => Some(file.2.as_bytes()),
        None => None,
    }
}

/// A look at a file of this time and text.
fn look_at(time: i128, text: &'static str) -> FileLook
    ensures { result ≡ look_at time (length text.now) }
{
    FileLook {
        time,
        size: Some((text.len() % (1 << 32)) as u32),
    }
}

impl Tree for Folder {
    ghost allows = { λ folder looks. (name : List ℕ)
        → looks name ≡ option_map (λ file. look_at file.1 (length file.2.now)) (find (λ file. bytes_eq file.0.now name) folder.files.now) };

    ghost refuses = { λ _ _. ⊥ };

    fn stamp(&mut self, _alloc: Global, name: &[u8]) -> Result<Option<FileLook>, TreeFault> {
        match find_file(self.files, name) {
            Some(file) => Ok(Some(look_at(file.1, file.2))),
            None => Ok(None),
        }
    }

    fn first_stamp(&mut self, alloc: Global, name: &[u8]) -> Result<Option<FileLook>, TreeFault> {
        self.stamp(alloc, name)
    }

    fn begin(&mut self, _alloc: Global, _expected: usize) -> Result<(), AllocError> {
        Ok(())
    }

    ghost possible = { λ folder. (
      λ name. option_map (λ file. look_at file.1 (length file.2.now)) (find (λ file. bytes_eq file.0.now name) folder.files.now),
      λ name. refl,
    ) };
}

impl Includes for Folder {
    ghost allows = { λ folder world.
        ((name : List ℕ) → world.files name ≡ option_map (λ file. file.2.now) (find (λ file. bytes_eq file.0.now name) folder.files.now))
        × ((file : List ℕ) (line : ℕ) (command : List ℕ) → world.outputs file line command ≡ [])
        × ((folder : List ℕ) → world.folders folder ≡ None) };

    fn read(&mut self, alloc: Global, name: &[u8]) -> Result<Option<Rc<Vec<u8>>>, AllocError> {
        self.reads = self.reads.saturating_add(1);
        match text_of(self.files, name) {
            Some(text) => Ok(Some(Rc::new(alloc, Vec::from_slice(alloc, text)?)?)),
            None => Ok(None),
        }
    }

    /// No command writes anything.
    fn output(
        &mut self,
        alloc: Global,
        _file: &[u8],
        _line: usize,
        _command: &[u8],
    ) -> Result<Vec<u8>, AllocError> {
        Ok(Vec::new(alloc))
    }

    /// No folder can be read.
    fn names(&mut self, _alloc: Global, _folder: &[u8]) -> Result<Option<ByteStrings>, AllocError> {
        Ok(None)
    }

    fn see(&mut self, _alloc: Global, _profile: Profile, _file: &[u8], _statements: &[Statement]) {}

    fn take_notes(&mut self, alloc: Global) -> Result<ByteStrings, AllocError> {
        Ok(ByteStrings::empty(alloc))
    }

    ghost possible = { λ folder. (
      record {
        files = λ name. option_map (λ file. file.2.now) (find (λ file. bytes_eq file.0.now name) folder.files.now);
        outputs = λ file line command. [];
        folders = λ folder. None;
      },
      (λ name. refl, λ file line command. refl, λ folder. refl),
    ) };
}
