//! Faults, told with the line that they are of.
ghost use Rattle.std.specs.Prelude.{◌≡◌, IfSome};
ghost use Rattle.mk_reader.specs.Form.{refusal, Refuses};
ghost use Rattle.mk_reader.specs.declared.fault.Cause.TheVariants.{Macro};
ghost use Rattle.mk_reader.specs.declared.fault.ReadFault.TheVariants as read_fault;
ghost use Rattle.mk_macros.specs.declared.fault.MacroFault.TheVariants as macro_fault;
ghost use Rattle.mk_eval.specs.Makefile.{fault_told, cause_of};

use byte_strings::ByteString;
use mk_macros::MacroFault;
use mk_reader::{Cause, MacroCause, ReadFault, Refusal};
use std::alloc::Global;

/// The fault of a line; the file's name is copied.
pub fn refuse(alloc: Global, file: &[u8], line: usize, cause: Cause) -> ReadFault
    ensures { Refuses result (refusal file.now line cause) }
{
    match ByteString::from_slice(alloc, file) {
        Ok(file) => ReadFault::Refused(Refusal { file, line, cause }),
        Err(_) => ReadFault::OutOfMemory,
    }
}

/// The fault of a line whose text has no expansion.
pub fn refuse_text(alloc: Global, file: &[u8], line: usize, fault: MacroFault) -> ReadFault
    ensures refused { IfSome (fault_told fault) (λ told. Refuses result (refusal file.now line (Macro (cause_of told)))) }
    ensures memory { fault ≡ macro_fault.OutOfMemory → result ≡ read_fault.OutOfMemory }
{
    let cause = match fault {
        MacroFault::OutOfMemory => return ReadFault::OutOfMemory,
        MacroFault::Loop(name) => MacroCause::Loop(name),
        MacroFault::Unclosed => MacroCause::Unclosed,
        MacroFault::NestedReference => MacroCause::NestedReference,
        MacroFault::TooLong => MacroCause::TooLong,
        MacroFault::Function(word) => MacroCause::Function(word),
    };
    refuse(alloc, file, line, Cause::Macro(cause))
}
