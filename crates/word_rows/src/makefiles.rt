//! Makefiles that are read with what they include, over the variables and the files of a row.
use crate::arguments::add;
use crate::expansions::{Setting, say_stop};
use crate::readings::say_refused;
use crate::target_lines::{say_definition, say_refusal, say_rule};
use crate::texts::{say_text, say_word};
use mk_gnu_eval::{Cause, Fault, Files, Item, Refused, Said, read_makefile};
use mk_variables::Table;
use row_files::{Answered, bytes};
use std::alloc::{AllocError, Global};
use std::mem;
use std::rc::Rc;

/// A file, and what it holds.
#[derive(Drop)]
pub(crate) struct Content {
    pub(crate) name: Vec<u8>,
    pub(crate) text: Vec<u8>,
}

/// The files of a row.
#[derive(Drop)]
pub(crate) struct Contents {
    pub(crate) files: Vec<Content>,
}

fn found<'a>(files: &'a [Content], name: &[u8]) -> Option<&'a [u8]> {
    for file in files {
        if file.name.as_slice() == name {
            return Some(file.text.as_slice());
        }
    }
    None
}

/// No contents are claimed to be those that are told of.
impl Files for Contents {
    ghost allows = { λ _ _. ⊥ };

    fn read(&mut self, alloc: Global, name: &[u8]) -> Result<Option<Rc<Vec<u8>>>, AllocError> {
        match found(self.files.as_slice(), name) {
            None => Ok(None),
            Some(text) => {
                let text = Vec::from_slice(alloc, text)?;
                Ok(Some(Rc::new(alloc, text)?))
            }
        }
    }
}

/// A line of a file, in front of what it says.
fn say_line(out: &mut String, file: &[u8], line: usize) -> Result<(), AllocError> {
    say_text(out, file)?;
    write!(out, ":{line}")
}

fn say_item(alloc: Global, out: &mut String, item: &Item) -> Result<(), AllocError> {
    say_line(out, item.file.as_slice(), item.line)?;
    match &item.said {
        Said::Rule(rule) => say_rule(alloc, out, rule),
        Said::Recipe(text) => {
            say_word(out, "recipe")?;
            say_text(out, text.as_slice())
        }
        Said::Defines(definition) => say_definition(alloc, out, definition),
        Said::Vpath(text) => {
            say_word(out, "vpath")?;
            say_text(out, text.as_slice())
        }
    }
}

fn say_items(alloc: Global, out: &mut String, items: &[Item]) -> Result<(), AllocError> {
    if items.is_empty() {
        return say_word(out, "nothing");
    }
    for item in items {
        say_item(alloc, out, item)?;
    }
    Ok(())
}

fn say_cause(out: &mut String, cause: Cause) -> Result<(), AllocError> {
    match cause {
        Cause::Line(refusal) => say_refusal(out, refusal),
        Cause::Text(stop) => say_stop(out, stop),
        Cause::Missing(name) => {
            out.push_str("missing:")?;
            bytes::say_all(out, name.as_slice())
        }
        Cause::TooDeep(name) => {
            out.push_str("included-too-deep:")?;
            bytes::say_all(out, name.as_slice())
        }
        Cause::Loads => out.push_str("load"),
    }
}

fn say_fault(out: &mut String, file: &[u8], fault: Fault) -> Result<(), AllocError> {
    say_text(out, file)?;
    out.push(':')?;
    match fault {
        Fault::Statements(refused) => say_refused(out, refused),
        Fault::At(line, cause) => {
            write!(out, "{line}:")?;
            say_cause(out, cause)
        }
    }
}

impl Setting {
    /// Takes a file that makefiles may include.
    pub(crate) fn hold(&mut self, name: Vec<u8>, text: Vec<u8>) -> Answered {
        Ok(add(&mut self.contents.files, Content { name, text })?)
    }

    /// Reads a text as that of `Makefile`, with what it includes: what was asked and said, and then what its lines say of targets, or why it isn't read.
    /// Behind it the row's variables are those of the makefile.
    pub(crate) fn say_makefile(
        &mut self,
        alloc: Global,
        text: &[u8],
        out: &mut String,
    ) -> Answered {
        self.outside.said.clear();
        let table = mem::replace(&mut self.table, Table::new(alloc, false));
        let mut told = String::new(alloc);
        match read_makefile(
            alloc,
            table,
            &mut self.outside,
            &mut self.contents,
            b"Makefile",
            text,
        ) {
            Ok(read) => {
                say_items(alloc, &mut told, read.items.as_slice())?;
                self.table = read.table;
            }
            Err(Refused::OutOfMemory) => return Err(AllocError.into()),
            Err(Refused::In(file, fault)) => say_fault(&mut told, file.as_slice(), fault)?,
        }
        out.push_str(self.outside.said.as_str())?;
        Ok(out.push_str(told.as_str())?)
    }
}
