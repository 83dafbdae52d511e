//! What the outside is asked while makefiles are evaluated: the files that they include, what commands write, and the names in folders.
ghost use Rattle.std.specs.Prelude.{◌≡◌, option_map, IfOk};
ghost use Rattle.mk_eval.specs.Output.{World};

use byte_strings::ByteStrings;
use mk_profile::Profile;
use mk_reader::Statement;
use std::alloc::{AllocError, Global};
use std::rc::Rc;

/// Gives the files that a makefile includes, runs the commands of its definitions, and lists folders. An answer narrows what is still
/// possible and never widens it.
pub trait Includes {
    /// Which worlds agree with all that was answered so far.
    ghost allows: { Self → World → Type 0 };

    /// The content of the file, or `None` where it can't be read. Names are as they stand in the makefile.
    fn read(&mut self, alloc: Global, name: &[u8]) -> Result<Option<Rc<Vec<u8>>>, AllocError>
        ensures content { IfOk result (λ answer. (world : World) → allows self.new world
            → option_map (λ text. text.value.items) answer ≡ world.files name.now) }
        ensures grows { (world : World) → allows self.new world → allows self.old world };

    /// What the command writes that the definition in this line of this file runs. Its first line is the shell.
    fn output(
        &mut self,
        alloc: Global,
        file: &[u8],
        line: usize,
        command: &[u8],
    ) -> Result<Vec<u8>, AllocError>
        ensures output { IfOk result (λ output. (world : World) → allows self.new world
            → output.items ≡ world.outputs file.now line command.now) }
        ensures grows { (world : World) → allows self.new world → allows self.old world };

    /// The names in a folder without `.` and `..`, or `None` where it can't be read. The current folder is named by nothing, and each other
    /// one ends with a `/`.
    fn names(&mut self, alloc: Global, folder: &[u8]) -> Result<Option<ByteStrings>, AllocError>
        ensures names { IfOk result (λ names. (world : World) → allows self.new world → names ≡ world.folders folder.now) }
        ensures grows { (world : World) → allows self.new world → allows self.old world };

    /// The statements of a file, before any of them is evaluated: for notes. It answers nothing.
    fn see(&mut self, alloc: Global, profile: Profile, file: &[u8], statements: &[Statement])
        ensures { (world : World) → allows self.new world → allows self.old world };

    /// The notes on the statements that were seen, a line each; each is given once. It answers nothing.
    fn take_notes(&mut self, alloc: Global) -> Result<ByteStrings, AllocError>
        ensures { (world : World) → allows self.new world → allows self.old world };

    // Something is always possible.
    ghost possible: { (source : Self) → (world : World) × allows source world };
}
