//! What recipe lines of the strict profile begin with, and what that comes to.
use crate::built_in::{behind_prefixes, is_prefix, unchanged};
use crate::front::{front, head, referred, unchanged_reference};
use crate::note::{Note, Subject};
use byte_strings::{ByteString, Words, trim_start};
use mk_macros::{Dynamic, MacroFault, Macros, Rank, RecipeNames};
use mk_profile::Profile;
use mk_reader::{Definition, Item, Statement};
use std::alloc::{AllocError, Global};

/// How many references of a line are followed into the texts of their macros.
const MAX_FOLLOWED: usize = 100;

/// Among how many of the last lines one isn't kept again.
const COMPARED: usize = 16;

/// What dynamic macros come to: something that is no prefix.
const SOMETHING: &[u8] = b"x";

/// A recipe line, by what it begins with.
#[derive(Drop)]
struct Line {
    file: ByteString,
    number: usize,
    front: ByteString,
    /// The targets of its rule, as they are spelled, where it may matter which they are: where words are changed.
    targets: ByteString,
}

/// What stands behind the include line whose file is read.
#[derive(Drop)]
enum Ahead {
    Definition(Defined),
    /// A file that is included.
    File,
}

#[derive(Drop)]
struct Defined {
    name: ByteString,
    text: ByteString,
    append: bool,
}

/// The lines that begin with a reference, and all that is defined.
#[derive(Drop)]
pub struct Fronts {
    alloc: Global,
    /// Each name comes to its text, as that stands there, or as much of it as its value begins with.
    texts: Macros,
    /// Each name comes to its value, or to what that begins with.
    values: Macros,
    /// The last one is the next.
    ahead: Vec<Ahead>,
    lines: Vec<Line>,
}

/// The text with each dollar doubled, which comes to it.
fn doubled(alloc: Global, text: &[u8]) -> Result<Vec<u8>, AllocError> {
    let mut doubled = Vec::with_capacity(alloc, text.len())?;
    for byte in text {
        if *byte == b'$' {
            doubled.push(b'$')?;
        }
        doubled.push(*byte)?;
    }
    Ok(doubled)
}

fn copied(alloc: Global, definition: &Definition) -> Result<Defined, AllocError> {
    Ok(Defined {
        name: definition.name.copy(alloc)?,
        text: definition.value.copy(alloc)?,
        append: definition.append,
    })
}

/// Dynamic macros are no macro's names that a makefile defines.
fn is_dynamic(name: &[u8]) -> bool {
    match name.first() {
        Some(byte) => matches!(*byte, b'@' | b'<' | b'*' | b'?'),
        None => false,
    }
}

/// How the name of a macro is told. The empty one has to be seen.
fn told(name: &[u8]) -> &[u8] {
    if name.is_empty() { b"$()" } else { name }
}

/// What a text comes to in a recipe of the target; None where it has no expansion.
fn value_of(
    alloc: Global,
    macros: &Macros,
    text: &[u8],
    target: &[u8],
) -> Result<Option<Vec<u8>>, AllocError> {
    let names = RecipeNames {
        target,
        source: SOMETHING,
        stem: SOMETHING,
        newer: &[SOMETHING],
        once: None,
        repeated: None,
        order_only: None,
    };
    match macros.expand(alloc, text, &Dynamic::RecipeLine(names)) {
        Ok(value) => Ok(Some(value)),
        Err(MacroFault::OutOfMemory) => Err(AllocError),
        Err(_) => Ok(None),
    }
}

impl Fronts {
    pub fn new(alloc: Global) -> Fronts {
        Fronts {
            alloc,
            texts: Macros::new(alloc, Profile::Strict),
            values: Macros::new(alloc, Profile::Strict),
            ahead: Vec::new(alloc),
            lines: Vec::new(alloc),
        }
    }

    /// Takes in a definition, by what its text begins with.
    pub fn define(
        &mut self,
        rank: Rank,
        name: &[u8],
        text: &[u8],
        append: bool,
    ) -> Result<(), AllocError> {
        let alloc = self.alloc;
        let text = head(text);
        let whole = doubled(alloc, text)?;
        self.texts.define(alloc, rank, name, &whole, append)?;
        self.values.define(alloc, rank, name, text, append)
    }

    /// Takes in what is defined down to the next include line.
    fn advance(&mut self) -> Result<(), AllocError> {
        for _ in 0..self.ahead.len() {
            match self.ahead.pop() {
                Some(Ahead::Definition(it)) => {
                    let Defined { name, text, append } = it;
                    self.define(Rank::Makefile, name.as_slice(), text.as_slice(), append)?;
                }
                Some(Ahead::File) => {
                    self.ahead.push(Ahead::File)?;
                    break;
                }
                None => break,
            }
        }
        Ok(())
    }

    fn go_behind(&mut self, statement: &Statement) -> Result<(), AllocError> {
        match statement {
            Statement::Item(Item::Definition(definition)) => {
                let definition = copied(self.alloc, definition)?;
                self.ahead.push(Ahead::Definition(definition))?;
            }
            Statement::Include(include) => {
                for _ in Words::new(include.names.as_slice()) {
                    self.ahead.push(Ahead::File)?;
                }
            }
            _ => {}
        }
        Ok(())
    }

    /// Takes in what a file defines, which stands in the place of the include line that was come to.
    pub fn see(&mut self, statements: &[Statement]) -> Result<(), AllocError> {
        self.define(Rank::Tool, b"MAKE", b"dmk", false)?;
        self.ahead.pop();
        for statement in statements.iter().rev() {
            self.go_behind(statement)?;
        }
        self.advance()
    }

    fn has(&self, front: &[u8], targets: &[u8]) -> bool {
        self.lines.iter().rev().take(COMPARED).any(|line| line.front.as_slice() == front
            && line.targets.as_slice() == targets)
    }

    /// Keeps a recipe line, of a rule of these targets, that begins with a reference.
    pub fn see_line(
        &mut self,
        file: &[u8],
        number: usize,
        targets: &[u8],
        text: &[u8],
    ) -> Result<(), AllocError> {
        let Some(front) = front(text) else {
            return Ok(());
        };
        let targets = if front.contains(&b'=') { targets } else { b"" };
        if self.has(front, targets) {
            return Ok(());
        }
        let file = ByteString::from_slice(self.alloc, file)?;
        let front = ByteString::from_slice(self.alloc, front)?;
        let targets = ByteString::from_slice(self.alloc, targets)?;
        self.lines.push(Line {
            file,
            number,
            front,
            targets,
        })?;
        Ok(())
    }

    pub fn forget_lines(&mut self) {
        self.lines = Vec::new(self.alloc);
    }

    /// The prefix that a text has in front once it is expanded.
    fn prefix_of(&self, text: &[u8]) -> Result<Option<u8>, AllocError> {
        let Some(value) = value_of(self.alloc, &self.values, text, SOMETHING)? else {
            return Ok(None);
        };
        match trim_start(&value).first() {
            Some(byte) if is_prefix(*byte) => Ok(Some(*byte)),
            _ => Ok(None),
        }
    }

    /// Whether a reference comes to no more than prefixes where the target is this one.
    fn is_nothing_for(&self, reference: &[u8], target: &[u8]) -> Result<bool, AllocError> {
        match value_of(self.alloc, &self.values, reference, target)? {
            Some(value) => Ok(behind_prefixes(&value).is_empty()),
            None => Ok(false),
        }
    }

    /// Whether it does for some target, or for one of these.
    fn is_nothing(&self, reference: &[u8], targets: &[u8]) -> Result<bool, AllocError> {
        if self.is_nothing_for(reference, SOMETHING)? {
            return Ok(true);
        }
        for target in Words::new(targets).take(MAX_FOLLOWED) {
            if self.is_nothing_for(reference, target)? {
                return Ok(true);
            }
        }
        Ok(false)
    }

    /// Adds to what is to be followed the text of a macro in place of the reference to it, unless that has no expansion.
    fn follow_text(
        &self,
        reference: &[u8],
        rest: &[u8],
        texts: &mut Vec<Vec<u8>>,
    ) -> Result<(), AllocError> {
        if let Some(mut text) = value_of(self.alloc, &self.texts, reference, SOMETHING)? {
            text.extend_from_slice(rest)?;
            texts.push(text)?;
        }
        Ok(())
    }

    /// So where its words are changed: what stands behind it, where it comes to nothing, and first the text of its macro, where what all
    /// comes to begins with a prefix.
    fn follow_changed(
        &self,
        start: &[u8],
        reference: &[u8],
        name: &[u8],
        targets: &[u8],
        texts: &mut Vec<Vec<u8>>,
    ) -> Result<(), AllocError> {
        let alloc = self.alloc;
        let (_reference, rest) = start.split_at(reference.len().min(start.len()));
        if self.is_nothing(reference, targets)? {
            texts.push(Vec::from_slice(alloc, rest)?)?;
        }
        if is_dynamic(name) || self.prefix_of(start)?.is_none() {
            return Ok(());
        }
        let plain = unchanged_reference(alloc, reference, name)?;
        self.follow_text(&plain, rest, texts)
    }

    /// The macro that is defined nowhere and comes first, behind prefixes and blanks, in what a line comes to, and the prefix behind it.
    fn leading(&self, line: &Line) -> Result<Option<(ByteString, u8)>, AllocError> {
        let alloc = self.alloc;
        let mut texts = Vec::new(alloc);
        texts.push(Vec::from_slice(alloc, line.front.as_slice())?)?;
        for _ in 0..MAX_FOLLOWED {
            let Some(text) = texts.pop() else {
                break;
            };
            let start = behind_prefixes(&text);
            let Some((inside, rest)) = referred(start) else {
                continue;
            };
            let (reference, _rest) = start.split_at(start.len().saturating_sub(rest.len()));
            let name = unchanged(inside);
            if !is_dynamic(name) && !self.values.is_defined(name) {
                if let Some(prefix) = self.prefix_of(rest)? {
                    let name = ByteString::from_slice(alloc, told(name))?;
                    return Ok(Some((name, prefix)));
                }
            } else if name.len() < inside.len() {
                let targets = line.targets.as_slice();
                self.follow_changed(start, reference, name, targets, &mut texts)?;
            } else if !is_dynamic(name) {
                self.follow_text(reference, rest, &mut texts)?;
            }
        }
        Ok(None)
    }

    /// The notes on these lines, one a macro.
    pub fn notes(&self) -> Result<Vec<Note>, AllocError> {
        let alloc = self.alloc;
        let mut told = Macros::new(alloc, Profile::Strict);
        let mut notes = Vec::new(alloc);
        for line in &self.lines {
            let Some((name, prefix)) = self.leading(line)? else {
                continue;
            };
            if told.is_defined(name.as_slice()) {
                continue;
            }
            told.define(alloc, Rank::Tool, name.as_slice(), b"", false)?;
            notes.push(Note {
                file: line.file.copy(alloc)?,
                line: line.number,
                subject: Subject::Leading(name, prefix),
            })?;
        }
        Ok(notes)
    }
}
