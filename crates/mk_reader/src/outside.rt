//! Lines that begin with a TAB where no rule stands above them, as the wide profile reads them.
ghost use Rattle.std.specs.Prelude.{◌≡◌, if◌then◌else◌};
ghost use Rattle.mk_reader.specs.declared.fault.Cause.TheVariants.{TabFirst};
ghost use Rattle.mk_reader.specs.Form.{Gives};
ghost use Rattle.mk_reader.specs.Statements.{lacks_sign, may_be_rule, lacks_separator, outside_form};

use crate::fault::{Cause, ReadFault, Refusal};
use crate::form::Form;
use crate::item::DefinitionKind;
use crate::line_place::LinePlace;
use crate::refuse::refuse;
use crate::statement::statement_form;
use mk_lines::next_joined_line;

fn lacks_sign(kind: DefinitionKind) -> bool
    ensures { result ≡ lacks_sign kind }
{
    match kind {
        DefinitionKind::NoSign => true,
        _ => false,
    }
}

/// Whether the line is a rule line, or may come to one.
fn may_be_rule(form: &Form) -> bool
    ensures { result ≡ may_be_rule form.now }
{
    match form {
        Form::Rule(_) => true,
        Form::DefinitionLine(line) => lacks_sign(line.kind),
        _ => false,
    }
}

fn lacks_separator(cause: &Cause) -> bool
    ensures { result ≡ lacks_separator cause.now }
{
    match cause {
        Cause::MissingSeparator | Cause::BlanksInFront => true,
        _ => false,
    }
}

/// The form of such a line: a definition, an include line or nothing, or it is refused as a recipe line that belongs to no rule.
#[tactic(auto, unfolding(crate::specs::Statements::outside_form))]
pub fn outside_form(place: LinePlace<'_>, text: &[u8]) -> Result<Form, ReadFault>
    ensures { Gives result (outside_form place.entry.profile place.entry.file.now place.entry.number text.now) }
{
    let (joined, _) = next_joined_line(place.alloc, text)?;
    match statement_form(place, joined.as_slice()) {
        Ok(form) => {
            if may_be_rule(&form) {
                return Err(refuse(place, Cause::TabFirst));
            }
            Ok(form)
        }
        Err(ReadFault::OutOfMemory) => Err(ReadFault::OutOfMemory),
        Err(ReadFault::Refused(refused)) => Err(ReadFault::Refused(outside_refusal(refused))),
    }
}

/// The refusal of a line as it is told there.
fn outside_refusal(refused: Refusal) -> Refusal
    ensures file { result.file ≡ refused.file }
    ensures line { result.line ≡ refused.line }
    ensures cause { result.cause ≡ (if lacks_separator refused.cause then TabFirst else refused.cause) }
{
    if !lacks_separator(&refused.cause) {
        return refused;
    }
    let Refusal {
        file,
        line,
        cause: _,
    } = refused;
    Refusal {
        file,
        line,
        cause: Cause::TabFirst,
    }
}
