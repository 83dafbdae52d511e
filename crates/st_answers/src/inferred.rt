//! The source that an implicit rule gave a target.

ghost use Rattle.std.specs.Prelude.{◌≡◌, ℕ, List, length};
ghost use Rattle.std.specs.Option.{option_copied};
ghost use Rattle.st_records.specs.Parts.{explicit_from};
ghost use Rattle.st_marks.specs.Parts.{parts_of};
ghost use Rattle.st_answers.specs.Graph.{source_among, source_of, source_where};

use st_marks::parts_of;
use st_packed::PackedEntry;
use st_records::Named;

/// The source, where it counts; None where there is none, or the marks that say of it can't be read.
pub(crate) fn source_where(counts: bool, entry: &PackedEntry) -> Option<&[u8]>
    ensures { option_copied result ≡ source_where counts entry.now }
{
    if counts {
        source_of(entry.hidden().len(), entry.lend())
    } else {
        None
    }
}

fn source_of<'a>(hidden: usize, explicit: Named<'a>) -> Option<&'a [u8]>
    ensures { (names : List (List ℕ)) → hidden ≡ length names → option_copied result ≡ source_of names (explicit_from explicit.entry) }
{
    match explicit {
        Named::Unknown => None,
        Named::Known(_names) => None,
        Named::Marked(names, text) => source_among(text, names.len(), hidden),
    }
}

fn source_among(text: &[u8], explicit: usize, hidden: usize) -> Option<&[u8]>
    ensures { option_copied result ≡ source_among (parts_of text.now explicit hidden) }
{
    match parts_of(text, explicit, hidden) {
        None => None,
        Some(parts) => parts.source,
    }
}
