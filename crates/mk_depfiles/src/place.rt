//! Where the depfile of a target lies.
ghost use Rattle.std.specs.Prelude.{◌≡◌, ◌+◌, ◌≤◌, length, IfOk, IfSome};
ghost use Rattle.std.specs.List.{suffix_len, position};
ghost use Rattle.mk_depfiles.specs.Place.{is_percent, is_not, folder_of, file_of, before_dot, stem_of, folder_by, depfile_of};

use crate::lines::begins_with;
use std::alloc::{AllocError, Global};

/// How many bytes stand behind the last of these.
fn len_behind_last(text: &[u8], byte: u8) -> usize
    ensures value { result ≡ suffix_len (is_not byte) text.now }
    ensures within { result ≤ length text.now }
{
    let mut end = text.len();
    while end > 0 && text[end - 1] != byte {
        end -= 1;
    }
    text.len() - end
}

/// The folder of a path, with its slash, and the name of the file in it.
fn split_folder(path: &[u8]) -> (&[u8], &[u8])
    ensures folder { result.0.now ≡ folder_of path.now }
    ensures file { result.1.now ≡ file_of path.now }
{
    path.split_at(path.len() - len_behind_last(path, b'/'))
}

fn before_dot(file: &[u8]) -> &[u8]
    ensures { result.now ≡ before_dot file.now }
{
    let len = file.len().saturating_sub(len_behind_last(file, b'.') + 1);
    file.split_at(len).0
}

/// The name of a file without its last suffix.
fn stem_of(file: &[u8]) -> &[u8]
    ensures { result.now ≡ stem_of file.now }
{
    let stem = before_dot(file);
    if stem.is_empty() { file } else { stem }
}

fn percent_at(pattern: &[u8]) -> Option<usize>
    ensures value { result ≡ position is_percent pattern.now }
    ensures within { IfSome result (λ at. at + 1 ≤ length pattern.now) }
{
    pattern.iter().position(|byte| *byte == b'%')
}

fn folder_by<'t>(pattern: &[u8], folder: &'t [u8]) -> &'t [u8]
    ensures { result.now ≡ folder_by pattern.now folder.now }
{
    if begins_with(pattern, b'/') {
        return b"".as_slice();
    }
    folder
}

/// The name that a pattern stands for. The first `%` is the target without its folder and its last suffix; the folder stands in front of all,
/// as where a pattern rule makes it, unless the pattern begins with a slash. A pattern without `%` is the name.
pub fn depfile_of(alloc: Global, pattern: &[u8], target: &[u8]) -> Result<Vec<u8>, AllocError>
    ensures { IfOk result (λ v. v.items ≡ depfile_of pattern.now target.now) }
{
    let Some(at) = percent_at(pattern) else {
        return Vec::from_slice(alloc, pattern);
    };
    let (folder, file) = split_folder(target);
    let mut name = Vec::from_slice(alloc, folder_by(pattern, folder))?;
    name.extend_from_slice(pattern.split_at(at).0)?;
    name.extend_from_slice(stem_of(file))?;
    name.extend_from_slice(pattern.split_at(at + 1).1)?;
    Ok(name)
}
