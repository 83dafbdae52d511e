//! Statements that are read in their order.
ghost use Rattle.std.specs.Prelude.{◌≡◌, ◌<◌, List, [], ◌∷◌, drop, length, map, IfOk, OnOk, IfErr, IfSome, MatchOption};
ghost use Rattle.mk_assignments.specs.Steps.{said_by};
ghost use Rattle.mk_conditionals.specs.Nest.{active};
ghost use Rattle.mk_functions.specs.Values.{Answers};
ghost use Rattle.mk_statements.specs.Reading.{Stated, stated};
ghost use Rattle.mk_statements.specs.Told.{told_by};
ghost use Rattle.mk_statements.specs.declared.course.Rule.TheVariants.{Closed};
ghost use Rattle.mk_variables.specs.Table.{Table, table_of};
ghost use Rattle.mk_taken.specs.Place.{goes_on, hands, refuses};
ghost use Rattle.mk_taken.specs.Reading.{behind, Defines, Where, Says, Takes, Reads};
ghost use Rattle.mk_taken.specs.Shown.{place_of, other_by, step_of, outcome_of, LeavesFewer, Stops, IsRefused};

use crate::directives::turn;
use crate::fault::{Refused, Why};
use crate::other::{Other, Reached};
use mk_assignments::Statement;
use mk_conditionals::Nest;
use mk_functions::Outside;
use mk_statements::{Line, Role, Rule, Said};
use mk_variables::Table as Variables;
use std::alloc::Global;

/// Where the next statement of a text stands: in which conditionals, and behind which rule.
pub struct Reading {
    nest: Nest,
    rule: Rule,
}

impl Drop for Reading {
    fn drop(self) {
        let Reading { nest: _, rule: _ } = self;
    }
}

/// The line at this place, and those behind it.
#[tactic(auto, using(crate::proofs::ReadingLemmas::fewer_behind))]
fn line_at<'a>(lines: &'a [Line<'a>], place: usize) -> Option<(&'a Line<'a>, &'a [Line<'a>])>
    ensures line { MatchOption result (drop place lines.now ≡ []) (λ found. drop place lines.now ≡ found.0.now ∷ found.1.now) }
    ensures within { IfSome result (λ _. place < length lines.now) }
    ensures fewer { IfSome result (λ found. length found.1.now < length lines.now) }
{
    let left = lines.get(place..)?;
    left.split_first()
}

impl Reading {
    /// The first statement of a text.
    pub fn new(alloc: Global) -> Reading
        ensures nest { result.nest ≡ [] }
        ensures rule { result.rule ≡ Closed }
    {
        Reading {
            nest: Nest::new(alloc),
            rule: Rule::Closed,
        }
    }

    /// Takes in what the caller's statement came to that was expanded.
    pub fn came_to(&mut self, rule: Rule)
        ensures { self.new ≡ record self.old { rule = rule } }
    {
        self.rule = rule;
    }

    /// Hands on what a statement says, where that counts.
    fn hand<'a>(&mut self, said: Said<'_>, other: Other<'a>) -> Option<Other<'a>>
        ensures { (table : Table) → Where (active self.old.nest) (place_of table self.old)
            (λ it. it ≡ hands (behind (place_of table self.old) (told_by said.entry)) (other_by other.entry)) (step_of (place_of table self.new) result) }
    {
        if !self.nest.is_active() {
            return None;
        }
        self.rule = self.rule.behind(said, Rule::Closed);
        Some(other)
    }

    /// Takes what a statement says of variables, where that counts.
    fn define<O: Outside>(
        &mut self,
        alloc: Global,
        table: &mut Variables,
        outside: &mut O,
        said: Said<'_>,
        statement: Statement<'_>,
        lines: &[u8],
    ) -> Result<(), Why>
        ensures told { (w : Answers) → O.allows outside.new w
            → OnOk result (Where (active self.old.nest) (place_of (table_of table.old) self.old)
            (Defines w (behind (place_of (table_of table.old) self.old) (told_by said.entry)) (said_by statement.entry) lines.now)
            (goes_on (place_of (table_of table.new) self.new))) }
        ensures refused { (w : Answers) → O.allows outside.new w
            → IfErr result (Stops (λ why. Where (active self.old.nest) (place_of (table_of table.old) self.old)
            (Defines w (behind (place_of (table_of table.old) self.old) (told_by said.entry)) (said_by statement.entry) lines.now) (refuses why))) }
        ensures narrows { (w : Answers) → O.allows outside.new w → O.allows outside.old w }
    {
        if !self.nest.is_active() {
            return Ok(());
        }
        table.take(alloc, outside, statement, lines)?;
        self.rule = self.rule.behind(said, Rule::Closed);
        Ok(())
    }

    /// Takes a statement by what it says: what of it is the caller's.
    fn take_said<'a, O: Outside>(
        &mut self,
        alloc: Global,
        table: &mut Variables,
        outside: &mut O,
        number: usize,
        said: Said<'a>,
    ) -> Result<Option<Other<'a>>, Why>
        ensures told { (w : Answers) → O.allows outside.new w
            → IfOk result (λ other. Says w (place_of (table_of table.old) self.old) number (told_by said.entry)
            (step_of (place_of (table_of table.new) self.new) other)) }
        ensures refused { (w : Answers) → O.allows outside.new w
            → IfErr result (Stops (λ why. Says w (place_of (table_of table.old) self.old) number (told_by said.entry) (refuses why))) }
        ensures narrows { (w : Answers) → O.allows outside.new w → O.allows outside.old w }
    {
        match said {
            Said::Nothing => Ok(None),
            Said::Conditional(line) => {
                turn(
                    &mut self.nest,
                    alloc,
                    &*table,
                    outside,
                    number,
                    line.directive,
                )?;
                Ok(None)
            }
            Said::Variables(statement) => {
                self.define(alloc, table, outside, said, statement, &[])?;
                Ok(None)
            }
            Said::Define(define) => {
                let statement = Statement::Begins(define.modifiers, define.line);
                self.define(alloc, table, outside, said, statement, define.body)?;
                Ok(None)
            }
            Said::Includes(is_required, names) => {
                Ok(self.hand(said, Other::Includes(is_required, names)))
            }
            Said::Vpath(text) => Ok(self.hand(said, Other::Vpath(text))),
            Said::Loads(is_required, names) => {
                Ok(self.hand(said, Other::Loads(is_required, names)))
            }
            Said::Expands(text, recipe) => Ok(self.hand(said, Other::Expands(text, recipe))),
            Said::Refused(fault) => {
                if self.nest.is_active() {
                    Err(Why::Line(fault))
                } else {
                    Ok(None)
                }
            }
        }
    }

    /// Takes the next statement: what of it is the caller's.
    fn take<'a, O: Outside>(
        &mut self,
        alloc: Global,
        table: &mut Variables,
        outside: &mut O,
        line: &'a Line<'a>,
    ) -> Result<Option<Other<'a>>, Why>
        ensures told { (w : Answers) → O.allows outside.new w
            → IfOk result (λ other. Takes w (place_of (table_of table.old) self.old) (stated line.now) (step_of (place_of (table_of table.new) self.new) other)) }
        ensures refused { (w : Answers) → O.allows outside.new w
            → IfErr result (Stops (λ why. Takes w (place_of (table_of table.old) self.old) (stated line.now) (refuses why))) }
        ensures narrows { (w : Answers) → O.allows outside.new w → O.allows outside.old w }
    {
        match self.rule.role_of(line.statement()) {
            Role::Recipe(text) => {
                if self.nest.is_active() {
                    Ok(Some(Other::Recipe(text)))
                } else {
                    Ok(None)
                }
            }
            Role::PassedOver => Ok(None),
            Role::Says(said) => self.take_said(alloc, table, outside, line.number, said),
        }
    }

    /// The same, with its line where it is refused.
    fn take_line<'a, O: Outside>(
        &mut self,
        alloc: Global,
        table: &mut Variables,
        outside: &mut O,
        line: &'a Line<'a>,
    ) -> Result<Option<Other<'a>>, Refused>
        ensures told { (w : Answers) → O.allows outside.new w
            → IfOk result (λ other. Takes w (place_of (table_of table.old) self.old) (stated line.now) (step_of (place_of (table_of table.new) self.new) other)) }
        ensures refused { (w : Answers) → O.allows outside.new w → (more : List Stated)
            → IfErr result (IsRefused (Reads w (stated line.now ∷ more) (place_of (table_of table.old) self.old))) }
        ensures narrows { (w : Answers) → O.allows outside.new w → O.allows outside.old w }
    {
        let number = line.number;
        match self.take(alloc, table, outside, line) {
            Ok(other) => Ok(other),
            Err(why) => Err(Refused::At(number, why)),
        }
    }

    /// Reads statements up to the first that counts and is the caller's, or to their end. What it came to, where it is expanded, is
    /// told by `came_to` before those behind it are read.
    ///
    /// Behind a refusal nothing is known of the variables.
    pub fn read<'a, O: Outside>(
        &mut self,
        alloc: Global,
        table: &mut Variables,
        outside: &mut O,
        lines: &'a [Line<'a>],
    ) -> Result<Reached<'a>, Refused>
        ensures told { (w : Answers) → O.allows outside.new w
            → IfOk result (λ reached. Reads w (map stated lines.now) (place_of (table_of table.old) self.old)
            (outcome_of (place_of (table_of table.new) self.new) reached)) }
        ensures refused { (w : Answers) → O.allows outside.new w
            → IfErr result (IsRefused (Reads w (map stated lines.now) (place_of (table_of table.old) self.old))) }
        ensures fewer { IfOk result (LeavesFewer (length lines.now)) }
        ensures narrows { (w : Answers) → O.allows outside.new w → O.allows outside.old w }
    {
        let mut place: usize = 0;
        while let Some((line, more)) = line_at(lines, place) {
            let number = line.number;
            let other = self.take_line(alloc, table, outside, line)?;
            if let Some(other) = other {
                return Ok(Reached::Other(number, other, more));
            }
            place += 1;
        }
        match self.nest.missing() {
            Some(fault) => Err(Refused::Unended(fault)),
            None => Ok(Reached::End),
        }
    }
}
