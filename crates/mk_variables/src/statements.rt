//! What statements make of the variables.
ghost use Rattle.std.specs.Prelude.{◌≡◌, ◌⊎◌, Ok, OnOk, OnErr, IfErr};
ghost use Rattle.mk_assignments.specs.Line.{begins};
ghost use Rattle.mk_assignments.specs.Steps.{defined_by, opened_by, said_by};
ghost use Rattle.mk_functions.specs.Values.{Answers};
ghost use Rattle.mk_words.specs.Words.{words_of};
ghost use Rattle.mk_variables.specs.Table.{table_of};
ghost use Rattle.mk_variables.specs.Statement.{origin_by, name_given, all_shared_as, exports_all_by, Defines, DefinesNamed, UndefinesNamed, Shares, Takes};
ghost use Rattle.mk_variables.specs.Shown.{IsForMemory, Refuses};

use crate::entry::{Manner, Sharing};
use crate::fault::Refusal;
use crate::table::Table;
use crate::value::{taken_by, value_of};
use byte_strings::trim;
use mk_assignments::{DefineLine, Definition, Modifiers, Sign, Statement};
use mk_functions::{Definitions, Origin, Outside, expand};
use mk_words::next_word;
use std::alloc::{AllocError, Global};

fn origin_by(is_overriding: bool) -> Origin
    ensures { result ≡ origin_by is_overriding }
{
    if is_overriding {
        Origin::Override
    } else {
        Origin::File
    }
}

fn exports_all_by(sharing: Sharing) -> bool
    ensures { result ≡ exports_all_by sharing }
{
    match sharing {
        Sharing::Exported => true,
        Sharing::Unsaid | Sharing::Unexported => false,
    }
}

impl Table {
    /// Defines a name, whose value is what a sign takes of a text.
    fn define_name<O: Outside>(
        &mut self,
        alloc: Global,
        outside: &mut O,
        manner: Manner,
        name: &[u8],
        text: &[u8],
    ) -> Result<(), Refusal>
        requires { manner.is_environment_first ≡ (table_of self.old).is_environment_first }
        ensures told { (w : Answers) → O.allows outside.new w
            → OnOk result (Defines w (table_of self.old) manner.modifiers manner.origin (name_given name.now) manner.sign text.now (Ok (table_of self.new))) }
        ensures refused { (w : Answers) → O.allows outside.new w
            → IfErr result (Refuses (Defines w (table_of self.old) manner.modifiers manner.origin (name_given name.now) manner.sign text.now)) }
        ensures kept { OnErr result (table_of self.new ≡ table_of self.old) }
        ensures narrows { (w : Answers) → O.allows outside.new w → O.allows outside.old w }
    {
        if name.is_empty() {
            return Err(Refusal::NoName);
        }
        let taken = taken_by(manner.sign, self.variable(name));
        let value = value_of(alloc, &*self, outside, taken, text)?;
        self.define_value(alloc, manner, name, value)?;
        Ok(())
    }

    fn manner(&self, modifiers: Modifiers, origin: Origin, sign: Sign) -> Manner
        ensures { result ≡ record { is_environment_first = (table_of self.now).is_environment_first; modifiers = modifiers; origin = origin; sign = sign } }
    {
        Manner {
            is_environment_first: self.is_environment_first(),
            modifiers,
            origin,
            sign,
        }
    }

    /// Takes a definition of this origin, as one of the command line. Its name is what its text comes to.
    ///
    /// Where it is refused, each name is what it was.
    pub fn define<O: Outside>(
        &mut self,
        alloc: Global,
        outside: &mut O,
        modifiers: Modifiers,
        origin: Origin,
        definition: Definition<'_>,
    ) -> Result<(), Refusal>
        ensures told { (w : Answers) → O.allows outside.new w
            → OnOk result (DefinesNamed w (table_of self.old) modifiers origin (defined_by definition.entry) (Ok (table_of self.new))) }
        ensures refused { (w : Answers) → O.allows outside.new w
            → IfErr result (Refuses (DefinesNamed w (table_of self.old) modifiers origin (defined_by definition.entry))) }
        ensures kept { OnErr result (table_of self.new ≡ table_of self.old) }
        ensures narrows { (w : Answers) → O.allows outside.new w → O.allows outside.old w }
    {
        let name = expand(alloc, &*self, outside, definition.name)?;
        let manner = self.manner(modifiers, origin, definition.sign);
        self.define_name(alloc, outside, manner, name.as_slice(), definition.value)
    }

    /// The same of `define`, whose lines are the text.
    fn define_lines<O: Outside>(
        &mut self,
        alloc: Global,
        outside: &mut O,
        modifiers: Modifiers,
        line: DefineLine<'_>,
        lines: &[u8],
    ) -> Result<(), Refusal>
        ensures told { (w : Answers) → O.allows outside.new w
            → OnOk result (Takes w (table_of self.old) (begins modifiers (opened_by line.entry)) lines.now (Ok (table_of self.new))) }
        ensures refused { (w : Answers) → O.allows outside.new w
            → IfErr result (Refuses (Takes w (table_of self.old) (begins modifiers (opened_by line.entry)) lines.now)) }
        ensures kept { OnErr result (table_of self.new ≡ table_of self.old) }
        ensures narrows { (w : Answers) → O.allows outside.new w → O.allows outside.old w }
    {
        let name = expand(alloc, &*self, outside, line.name)?;
        let origin = origin_by(modifiers.is_overriding);
        let manner = self.manner(modifiers, origin, line.sign);
        self.define_name(alloc, outside, manner, trim(name.as_slice()), lines)
    }

    fn undefine<O: Outside>(
        &mut self,
        alloc: Global,
        outside: &mut O,
        modifiers: Modifiers,
        text: &[u8],
    ) -> Result<(), Refusal>
        ensures told { (w : Answers) → O.allows outside.new w
            → OnOk result (UndefinesNamed w (table_of self.old) modifiers text.now (Ok (table_of self.new))) }
        ensures refused { (w : Answers) → O.allows outside.new w
            → IfErr result (Refuses (UndefinesNamed w (table_of self.old) modifiers text.now)) }
        ensures kept { OnErr result (table_of self.new ≡ table_of self.old) }
        ensures narrows { (w : Answers) → O.allows outside.new w → O.allows outside.old w }
    {
        let text = expand(alloc, &*self, outside, text)?;
        let name = trim(text.as_slice());
        if name.is_empty() {
            return Err(Refusal::NoName);
        }
        self.remove(origin_by(modifiers.is_overriding), name);
        Ok(())
    }

    /// Says of words how they are shared. Where memory is refused, it is said of some of them.
    fn share_words(
        &mut self,
        alloc: Global,
        sharing: Sharing,
        words: &[u8],
    ) -> Result<(), AllocError>
        ensures { OnOk result (table_of self.new ≡ all_shared_as sharing (words_of words.now) (table_of self.old)) }
    {
        let mut rest = words;
        while let Some((word, behind)) = next_word(rest) {
            self.share_name(alloc, sharing, word)?;
            rest = behind;
        }
        Ok(())
    }

    fn share<O: Outside>(
        &mut self,
        alloc: Global,
        outside: &mut O,
        sharing: Sharing,
        names: &[u8],
    ) -> Result<(), Refusal>
        ensures told { (w : Answers) → O.allows outside.new w
            → OnOk result (Shares w (table_of self.old) sharing names.now (Ok (table_of self.new))) }
        ensures refused { (w : Answers) → O.allows outside.new w → IfErr result (Refuses (Shares w (table_of self.old) sharing names.now)) }
        ensures kept { IfErr result (λ why. IsForMemory why ⊎ (table_of self.new ≡ table_of self.old)) }
        ensures narrows { (w : Answers) → O.allows outside.new w → O.allows outside.old w }
    {
        if names.is_empty() {
            self.set_exports_all(exports_all_by(sharing));
            return Ok(());
        }
        let words = expand(alloc, &*self, outside, names)?;
        self.share_words(alloc, sharing, words.as_slice())?;
        Ok(())
    }

    /// Takes a statement. The lines are those of a `define`, and nothing else has any.
    ///
    /// Where a statement is refused, each name is what it was; where memory is refused, some of the names may be exported that
    /// `export` lists.
    pub fn take<O: Outside>(
        &mut self,
        alloc: Global,
        outside: &mut O,
        statement: Statement<'_>,
        lines: &[u8],
    ) -> Result<(), Refusal>
        ensures told { (w : Answers) → O.allows outside.new w
            → OnOk result (Takes w (table_of self.old) (said_by statement.entry) lines.now (Ok (table_of self.new))) }
        ensures refused { (w : Answers) → O.allows outside.new w → IfErr result (Refuses (Takes w (table_of self.old) (said_by statement.entry) lines.now)) }
        ensures kept { IfErr result (λ why. IsForMemory why ⊎ (table_of self.new ≡ table_of self.old)) }
        ensures narrows { (w : Answers) → O.allows outside.new w → O.allows outside.old w }
    {
        match statement {
            Statement::Defines(modifiers, definition) => {
                let origin = origin_by(modifiers.is_overriding);
                self.define(alloc, outside, modifiers, origin, definition)
            }
            Statement::Begins(modifiers, line) => {
                self.define_lines(alloc, outside, modifiers, line, lines)
            }
            Statement::Undefines(modifiers, name) => self.undefine(alloc, outside, modifiers, name),
            Statement::Exports(names) => self.share(alloc, outside, Sharing::Exported, names),
            Statement::Unexports(names) => self.share(alloc, outside, Sharing::Unexported, names),
        }
    }
}
