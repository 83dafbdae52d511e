//! Faults, told with the file that they are of.
ghost use Rattle.std.specs.Prelude.{◌≡◌};
ghost use Rattle.mk_gnu_eval.specs.Item.{in_line, missing_file, too_deep};
ghost use Rattle.mk_gnu_eval.specs.Shown.{IsIn, IsRefused};
ghost use Rattle.mk_gnu_eval.specs.declared.fault.Fault.TheVariants.{At};

use crate::fault::{Cause, Fault, Refused};
use crate::site::Site;
use std::alloc::Global;

/// The fault of a file, whose name is copied.
pub(crate) fn refuse(alloc: Global, file: &[u8], fault: Fault) -> Refused
    ensures { IsIn file.now fault result }
{
    match Vec::from_slice(alloc, file) {
        Ok(file) => Refused::In(file, fault),
        Err(_) => Refused::OutOfMemory,
    }
}

/// The fault of a line.
pub(crate) fn refuse_line(alloc: Global, site: &Site<'_>, cause: Cause) -> Refused
    ensures { IsIn site.now.file.now (At site.now.line cause) result }
{
    refuse(alloc, site.file, Fault::At(site.line, cause))
}

/// A file that has to be there, and isn't.
pub(crate) fn refuse_missing(alloc: Global, site: &Site<'_>, name: &[u8]) -> Refused
    ensures { IsRefused (λ why. why ≡ in_line site.now.file.now site.now.line (missing_file name.now)) result }
{
    match Vec::from_slice(alloc, name) {
        Ok(name) => refuse_line(alloc, site, Cause::Missing(name)),
        Err(_) => Refused::OutOfMemory,
    }
}

/// A file that is included too deep.
pub(crate) fn refuse_depth(alloc: Global, site: &Site<'_>, name: &[u8]) -> Refused
    ensures { IsRefused (λ why. why ≡ in_line site.now.file.now site.now.line (too_deep name.now)) result }
{
    match Vec::from_slice(alloc, name) {
        Ok(name) => refuse_line(alloc, site, Cause::TooDeep(name)),
        Err(_) => Refused::OutOfMemory,
    }
}
