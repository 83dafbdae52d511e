//! The commands that definitions ran.
ghost use Rattle.std.specs.Prelude.{◌≡◌, ◌++◌, [], ◌∷◌, option_map, OnOk, OnErr};
ghost use Rattle.dmk_files.specs.Commands.{is_command, known_output};

use byte_strings::ByteString;
use std::alloc::{AllocError, Global};

/// A command, and what it wrote.
pub struct RunCommand {
    /// The file and the line of its definition.
    pub file: ByteString,
    pub line: usize,
    pub text: ByteString,
    pub output: ByteString,
}

impl Drop for RunCommand {
    fn drop(self) {
        let RunCommand {
            file: _,
            line: _,
            text: _,
            output: _,
        } = self;
    }
}

impl RunCommand {
    fn is(&self, file: &[u8], line: usize, text: &[u8]) -> bool
        ensures { result ≡ is_command self.now file.now line text.now }
    {
        self.line == line && self.text.as_slice() == text && self.file.as_slice() == file
    }
}

/// Those that were run so far, in order.
pub struct Commands {
    run: Vec<RunCommand>,
}

impl Drop for Commands {
    fn drop(self) {
        let Commands { run: _ } = self;
    }
}

impl Commands {
    pub fn new(alloc: Global) -> Commands {
        Commands {
            run: Vec::new(alloc),
        }
    }

    /// What the command wrote, where it was run.
    pub fn get(&self, file: &[u8], line: usize, text: &[u8]) -> Option<&[u8]>
        ensures { option_map (λ output. output.now) result ≡ known_output self.now.run.items file.now line text.now }
    {
        let mut rest = self.run.as_slice();
        while let Some((one, after)) = rest.split_first() {
            if one.is(file, line, text) {
                return Some(one.output.as_slice());
            }
            rest = after;
        }
        None
    }

    /// Takes in what a command wrote.
    pub fn add(
        &mut self,
        alloc: Global,
        file: &[u8],
        line: usize,
        text: &[u8],
        output: &[u8],
    ) -> Result<(), AllocError>
        ensures ok { OnOk result (self.new.run.items ≡ self.old.run.items
            ++ record { file = file.now; line = line; text = text.now; output = output.now } ∷ []) }
        ensures err { OnErr result (self.new.run.items ≡ self.old.run.items) }
    {
        let file = ByteString::from_slice(alloc, file)?;
        let text = ByteString::from_slice(alloc, text)?;
        let output = ByteString::from_slice(alloc, output)?;
        self.run.push(RunCommand {
            file,
            line,
            text,
            output,
        })?;
        Ok(())
    }
}
