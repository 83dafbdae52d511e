//! What was gathered of a text so far, while it is read line by line.
ghost use Rattle.std.specs.Prelude.{◌≡◌, false, [], ◌∷◌, ◌++◌, Ok, IfOk, OnOk};
ghost use Rattle.mk_reader.specs.Form.{recipe_form, statement_form};
ghost use Rattle.mk_reader.specs.Statements.{outside_form, form_below, with_lines, with_line, AddsLine, RecipeLineTaken, IsFaultTaken, Taken};

use crate::fault::{Cause, ReadFault};
use crate::file_name::FileName;
use crate::form::{Form, UnfinishedRule};
use crate::item::{Item, RecipeLine, Special, Statement};
use crate::line_place::LinePlace;
use crate::outside::outside_form;
use crate::plain_line::plain_rule;
use crate::refuse::refuse;
use crate::statement::statement_form;
use byte_strings::trim_start;
use mk_lines::{LineText, LogicalLine, is_text};
use mk_profile::Profile;
use std::alloc::{AllocError, Global};

/// The statements of the lines that were taken in.
#[derive(Drop)]
pub struct Gathered {
    pub statements: Vec<Statement>,
    /// Whether the last of them is a rule that recipe lines may still be added to.
    pub is_open: bool,
}

fn into_item(unfinished: UnfinishedRule) -> Item
    ensures { result ≡ with_lines unfinished [] }
{
    let UnfinishedRule { special, rule } = unfinished;
    match special {
        Some(name) => Item::Special(Special { name, rule }),
        None => Item::Rule(rule),
    }
}

/// Adds a line to the recipe of a statement, if it is a rule.
fn add_line(one: &mut Statement, line: RecipeLine) -> Result<(), AllocError>
    ensures { OnOk result (one.new ≡ with_line one.old line) }
{
    match one {
        Statement::Item(Item::Rule(rule)) => rule.recipe.push(line),
        Statement::Item(Item::Special(special)) => special.rule.recipe.push(line),
        _ => Ok(()),
    }
}

/// Adds a line to the recipe of the last rule.
#[tactic(auto, using(crate::proofs::StatementLemmas::adds_at_last, crate::proofs::StatementLemmas::adds_nothing))]
fn add_to_last(statements: &mut Vec<Statement>, line: RecipeLine) -> Result<(), AllocError>
    ensures { OnOk result (AddsLine statements.old.items line statements.new.items) }
{
    match statements.last_mut() {
        Some(last) => add_line(last, line),
        None => Ok(()),
    }
}

impl Gathered {
    /// Nothing, with room for so many statements.
    pub fn with_capacity(alloc: Global, capacity: usize) -> Result<Gathered, AllocError>
        ensures statements { IfOk result (λ gathered. gathered.statements.items ≡ []) }
        ensures is_open { IfOk result (λ gathered. gathered.is_open ≡ false) }
    {
        Ok(Gathered {
            statements: Vec::with_capacity(alloc, capacity)?,
            is_open: false,
        })
    }

    fn add(&mut self, one: Statement, is_open: bool) -> Result<(), AllocError>
        ensures statements { OnOk result (self.new.statements.items ≡ self.old.statements.items ++ one ∷ []) }
        ensures is_open { OnOk result (self.new.is_open ≡ is_open) }
    {
        self.statements.push(one)?;
        self.is_open = is_open;
        Ok(())
    }

    /// Adds the refusal of a line, which is the last statement. Answers `true`.
    #[cold]
    fn take_fault(&mut self, fault: ReadFault) -> Result<bool, AllocError>
        ensures { IfOk result (λ ended. IsFaultTaken fault self.old.statements.items self.new.statements.items ended) }
    {
        match fault {
            ReadFault::OutOfMemory => Err(AllocError),
            ReadFault::Refused(refusal) => {
                self.statements.push(Statement::Refused(refusal))?;
                Ok(true)
            }
        }
    }

    /// Adds a line to the recipe of the last rule. Answers whether it is refused, since there is none.
    fn take_recipe_line(
        &mut self,
        place: LinePlace<'_>,
        line: RecipeLine,
    ) -> Result<bool, AllocError>
        ensures { IfOk result (λ ended. RecipeLineTaken place.entry.file.now place.entry.number line
            self.old.statements.items self.old.is_open self.new.statements.items self.new.is_open ended) }
    {
        if !self.is_open {
            return self.take_fault(refuse(place, Cause::TabFirst));
        }
        add_to_last(&mut self.statements, line)?;
        Ok(false)
    }

    /// Takes in a line of this form. Answers whether it is refused.
    fn take_form(&mut self, place: LinePlace<'_>, form: Form) -> Result<bool, AllocError>
        ensures { IfOk result (λ ended. Taken place.entry.file.now place.entry.number (Ok form)
            self.old.statements.items self.old.is_open self.new.statements.items self.new.is_open ended) }
    {
        match form {
            Form::Blank => {}
            Form::Recipe(line) => return self.take_recipe_line(place, line),
            Form::Include(include) => self.add(Statement::Include(include), false)?,
            Form::DefinitionLine(definition) => {
                self.add(Statement::Definition(definition), false)?;
            }
            Form::Definition(definition) => {
                self.add(Statement::Item(Item::Definition(definition)), false)?;
            }
            Form::Rule(rule) => self.add(Statement::Item(into_item(rule)), true)?,
        }
        Ok(false)
    }

    /// Takes in a recipe line. Answers whether it is refused.
    #[tactic(auto, unfolding(crate::specs::Form::recipe_form))]
    fn take_recipe(&mut self, place: LinePlace<'_>, text: LineText<'_>) -> Result<bool, AllocError>
        ensures { IfOk result (λ ended. Taken place.entry.file.now place.entry.number (recipe_form place.entry.file.now place.entry.number text.entry)
            self.old.statements.items self.old.is_open self.new.statements.items self.new.is_open ended) }
    {
        if !is_text(text.as_slice()) {
            return self.take_fault(refuse(place, Cause::NotText));
        }
        if trim_start(text.as_slice()).is_empty() {
            return Ok(false);
        }
        let text = text.into_string(place.alloc)?;
        let line = RecipeLine {
            text,
            line: place.number,
        };
        self.take_recipe_line(place, line)
    }

    /// Takes in a line that begins with a TAB where no rule stands above it, in the wide profile. Answers whether it is refused.
    #[cold]
    fn take_outside(&mut self, place: LinePlace<'_>, text: &[u8]) -> Result<bool, AllocError>
        ensures { IfOk result (λ ended. Taken place.entry.file.now place.entry.number (outside_form place.entry.profile place.entry.file.now place.entry.number text.now)
            self.old.statements.items self.old.is_open self.new.statements.items self.new.is_open ended) }
    {
        match outside_form(place, text) {
            Ok(form) => self.take_form(place, form),
            Err(fault) => self.take_fault(fault),
        }
    }

    /// Takes in a line that is no recipe line, whatever signs stand in it. Answers whether it is refused.
    #[inline(never)]
    fn take_signs(&mut self, place: LinePlace<'_>, text: &[u8]) -> Result<bool, AllocError>
        ensures { IfOk result (λ ended. Taken place.entry.file.now place.entry.number (statement_form place.entry.profile place.entry.file.now place.entry.number text.now)
            self.old.statements.items self.old.is_open self.new.statements.items self.new.is_open ended) }
    {
        match statement_form(place, text) {
            Ok(form) => self.take_form(place, form),
            Err(fault) => self.take_fault(fault),
        }
    }

    /// Takes in a line that is no recipe line. Answers whether it is refused.
    fn take_statement(&mut self, place: LinePlace<'_>, text: &[u8]) -> Result<bool, AllocError>
        ensures { IfOk result (λ ended. Taken place.entry.file.now place.entry.number (statement_form place.entry.profile place.entry.file.now place.entry.number text.now)
            self.old.statements.items self.old.is_open self.new.statements.items self.new.is_open ended) }
    {
        if let Some(rule) = plain_rule(place, text)? {
            self.add(Statement::Item(Item::Rule(rule)), true)?;
            return Ok(false);
        }
        self.take_signs(place, text)
    }

    /// Takes in the next line of the file. Answers whether it is refused, which ends the file's statements.
    #[tactic(auto, unfolding(crate::specs::Statements::form_below, crate::specs::Form::form_of))]
    pub fn take_line(
        &mut self,
        alloc: Global,
        profile: Profile,
        file: &FileName,
        line: LogicalLine<'_>,
    ) -> Result<bool, AllocError>
        ensures { IfOk result (λ ended. Taken file.now line.entry.number (form_below profile file.now self.old.is_open line.entry)
            self.old.statements.items self.old.is_open self.new.statements.items self.new.is_open ended) }
    {
        let LogicalLine {
            number,
            is_recipe,
            text,
        } = line;
        let place = LinePlace {
            alloc,
            profile,
            file,
            number,
        };
        if !self.is_open && is_recipe && profile.is_wide() {
            return self.take_outside(place, text.as_slice());
        }
        if is_recipe {
            self.take_recipe(place, text)
        } else {
            self.take_statement(place, text.as_slice())
        }
    }
}
