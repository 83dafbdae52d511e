//! From the text of one file to its statements.
ghost use Rattle.mk_reader.specs.Statements.{AreStatements};
ghost use Rattle.std.specs.Prelude.{IfOk};

use crate::file_name::FileName;
use crate::gathered::Gathered;
use crate::item::Statement;
use mk_lines::next_logical_line;
use mk_profile::Profile;
use std::alloc::{AllocError, Global};

/// How long a statement may be expected to be, with its recipe: room that isn't used takes no memory.
const STATEMENT_LEN: usize = 40;

/// The statements of a text, each with this name of its file.
fn statements_in(
    alloc: Global,
    profile: Profile,
    file: &FileName,
    text: &[u8],
) -> Result<Vec<Statement>, AllocError>
    ensures { IfOk result (λ v. AreStatements profile file.now text.now v.items) }
{
    let mut gathered = Gathered::with_capacity(alloc, text.len() / STATEMENT_LEN)?;
    let mut left = Some(text);
    let mut number = 1;
    while let Some(bytes) = left {
        let (line, next_number, after) = next_logical_line(alloc, profile, number, bytes)?;
        let is_refused = gathered.take_line(alloc, profile, file, line)?;
        if is_refused {
            return Ok(gathered.statements);
        }
        left = after;
        number = next_number;
    }
    Ok(gathered.statements)
}

/// The statements of a text, in their order. The first line that is refused is the last of them.
///
/// `file` is the name that statements and refusals give for the text. Files that it includes aren't read, and nothing
/// is expanded.
pub fn statements_of(
    alloc: Global,
    profile: Profile,
    file: &[u8],
    text: &[u8],
) -> Result<Vec<Statement>, AllocError>
    ensures { IfOk result (λ v. AreStatements profile file.now text.now v.items) }
{
    let file = FileName::new(alloc, file)?;
    statements_in(alloc, profile, &file, text)
}
