//! The marks of a target's record apart, by what they are of.

ghost use Rattle.std.specs.Prelude.{◌≡◌, ◌+◌, ◌-◌, ◌<◌, Some, None, IfSome, IfNone};
ghost use Rattle.std.specs.Option.{SomeIff, option_copied};
ghost use Rattle.st_marks.specs.Parts.{sources, parts_of, parted};

use crate::decoder::read_marks;
use crate::marks::Marks;

/// Marks by what they are of.
#[derive(Drop)]
pub struct Parts<'a> {
    /// Of the target and those that are made with it.
    pub files: Marks<'a>,
    /// The name of the source, where an implicit rule gave the target one, and its mark.
    pub source: Option<&'a [u8]>,
    pub of_source: Marks<'a>,
    pub explicit: Marks<'a>,
    pub hidden: Marks<'a>,
}

/// The marks of which a text says, of a target that has so many explicit and hidden prerequisites. None where the bytes are no such
/// text, or it says of no more files than these.
pub fn parts_of(text: &[u8], explicit: usize, hidden: usize) -> Option<Parts<'_>>
    ensures found { IfSome result (λ parts. parts_of text.now explicit hidden ≡ Some (parted parts)) }
    ensures none { IfNone result (parts_of text.now explicit hidden ≡ None) }
{
    let said = read_marks(text)?;
    let sources = sources(said.source);
    let files = files_among(said.marks.len(), sources, explicit, hidden)?;
    let behind_files = said.marks.behind(files);
    let behind_source = behind_files.behind(sources);
    Some(Parts {
        files: said.marks.front(files),
        source: said.source,
        of_source: behind_files.front(sources),
        explicit: behind_source.front(explicit),
        hidden: behind_source.behind(explicit),
    })
}

fn sources(source: Option<&[u8]>) -> usize
    ensures { result ≡ sources (option_copied source.entry) }
{
    match source {
        None => 0,
        Some(_name) => 1,
    }
}

/// How many of so many marks are of the target and those that are made with it.
fn files_among(marks: usize, sources: usize, explicit: usize, hidden: usize) -> Option<usize>
    ensures { SomeIff result (sources + (explicit + hidden) < marks) (marks - (sources + (explicit + hidden))) }
{
    let behind_source = marks.checked_sub(sources)?;
    let behind_explicit = behind_source.checked_sub(explicit)?;
    let files = behind_explicit.checked_sub(hidden)?;
    if files == 0 {
        return None;
    }
    Some(files)
}
