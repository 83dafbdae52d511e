//! What a makefile holds: definitions, rules and special rules, each with its file and line.
ghost use Rattle.std.specs.Prelude.{◌≡◌, [], ◌∷◌, IfOk};

use crate::fault::Refusal;
use crate::file_name::FileName;
use crate::special::SpecialName;
use byte_strings::ByteString;
use std::alloc::{AllocError, Global};
use std::marker::Model;
use std::{mem, slice};

/// `NAME = VALUE`, or `NAME += VALUE`. Neither text is expanded.
#[derive(Drop)]
pub struct Definition {
    pub file: FileName,
    /// The number of the first physical line, from 1.
    pub line: usize,
    pub name: ByteString,
    /// Whether `+=` stood there.
    pub append: bool,
    pub value: ByteString,
    /// Whether what is appended to this is expanded where it stands.
    pub is_fixed: bool,
}

/// A line of a recipe, without its TAB.
pub struct RecipeLine {
    pub text: ByteString,
    /// The number of the first physical line, from 1, in the rule's file.
    pub line: usize,
}

impl Drop for RecipeLine {
    fn drop(self) {
        let RecipeLine { text: _, line: _ } = self;
    }
}

/// The lines of a recipe. Most recipes have one, which takes no vector.
#[derive(Drop)]
enum Lines {
    One(RecipeLine),
    Many(Vec<RecipeLine>),
}

/// A line that is taken out of its place, and one behind it. After an `Err` it stands there still.
fn two_lines(
    alloc: Global,
    first: &mut RecipeLine,
    second: RecipeLine,
) -> Result<Vec<RecipeLine>, AllocError>
    ensures { IfOk result (λ lines. lines.items ≡ first.old ∷ second ∷ []) }
{
    let mut lines = Vec::with_capacity(alloc, 2)?;
    let nothing = RecipeLine {
        text: ByteString::new(Vec::new(alloc)),
        line: 0,
    };
    lines.push(mem::replace(first, nothing))?;
    lines.push(second)?;
    Ok(lines)
}

/// The lines of a recipe, in order.
pub struct Recipe {
    alloc: Global,
    lines: Lines,
}

impl Model for Recipe {
    ghost use Rattle.std.specs.Prelude.{List};
    ghost use Rattle.mk_reader.specs.Recipe.{held_lines};
    ghost use Rattle.mk_reader.specs.declared.item.RecipeLine.{RecipeLine};

    ghost Value = { List RecipeLine };

    ghost view = { λ r. held_lines r.lines };
}

impl Drop for Recipe {
    fn drop(self) {
        let Recipe { alloc: _, lines: _ } = self;
    }
}

impl Recipe {
    ghost use Rattle.std.specs.Prelude.{◌≡◌, [], ◌∷◌, ◌++◌, OnOk};

    pub fn new(alloc: Global) -> Recipe
        ensures { result ≡ [] }
    {
        Recipe {
            alloc,
            lines: Lines::Many(Vec::new(alloc)),
        }
    }

    /// Adds the line at the end. After an `Err` the recipe is as it was.
    pub fn push(&mut self, line: RecipeLine) -> Result<(), AllocError>
        ensures ok { OnOk result (self.new ≡ self.old ++ line ∷ []) }
    {
        match &mut self.lines {
            Lines::One(first) => self.lines = Lines::Many(two_lines(self.alloc, first, line)?),
            Lines::Many(lines) if lines.is_empty() => self.lines = Lines::One(line),
            Lines::Many(lines) => lines.push(line)?,
        }
        Ok(())
    }

    pub fn lines(&self) -> &[RecipeLine]
        ensures { result.now ≡ self.now }
    {
        match &self.lines {
            Lines::One(line) => slice::from_ref(line),
            Lines::Many(lines) => lines.as_slice(),
        }
    }
}

/// `TARGETS : PREREQUISITES`, or with `::`, with a recipe below it or behind a `;`. The texts aren't expanded, and as they
/// are read they have no blanks at their ends.
#[derive(Drop)]
pub struct Rule {
    pub file: FileName,
    /// The number of the first physical line, from 1.
    pub line: usize,
    /// Whether `::` stands there, which the wide profile has.
    pub is_double: bool,
    pub targets: ByteString,
    pub prerequisites: ByteString,
    pub recipe: Recipe,
}

/// A rule whose first target is a special name. Its other targets mean nothing.
#[derive(Drop)]
pub struct Special {
    pub name: SpecialName,
    pub rule: Rule,
}

/// When a definition counts that isn't taken as it stands.
#[derive(Clone, Copy)]
pub enum DefinitionKind {
    /// `?=`: where the name has no text yet.
    IfUndefined,
    /// `::=` and `:=`: with its text expanded where it stands, as are texts that are appended to it.
    AtOnce,
    /// `:::=`: with its text expanded where it stands, but not what is appended to it.
    AtOnceAlone,
    /// `!=`: with what the command writes that its text is.
    Output,
    /// No sign, and no name: the text has to come to nothing, and defines nothing.
    NoSign,
}

/// A definition of the wide profile, which counts by what stands above it. It doesn't append.
#[derive(Drop)]
pub struct DefinitionLine {
    pub kind: DefinitionKind,
    pub definition: Definition,
}

#[derive(Drop)]
pub enum Item {
    Definition(Definition),
    Rule(Rule),
    Special(Special),
}

/// `include NAMES`. In the wide profile the names may hold references, and there may be none.
#[derive(Drop)]
pub struct IncludeLine {
    /// The number of the first physical line, from 1, in the file of the statements.
    pub line: usize,
    /// Whether a file that isn't there is a fault.
    pub is_required: bool,
    /// What follows the word that begins the line.
    pub names: ByteString,
}

/// What a line of a file says, with the recipe lines below it.
#[derive(Drop)]
pub enum Statement {
    Item(Item),
    Definition(DefinitionLine),
    Include(IncludeLine),
    /// A line that is refused. It is the last statement of its file.
    Refused(Refusal),
}
