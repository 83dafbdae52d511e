//! The names of a text.
ghost use Rattle.std.specs.Prelude.{◌≡◌, ℕ, List, Option, IfOk, option_copied, option_map};
ghost use Rattle.mk_target_lines.specs.Names.{end_mark, is_stop, names_of, names_behind, prerequisites};
ghost use Rattle.mk_target_lines.specs.Rule.{form_of};

use crate::cut::cut;
use crate::mark::Mark;
use byte_strings::ByteStrings;
use mk_words::behind_spaces;
use std::alloc::{AllocError, Global};
use std::marker::Model;

/// Names, and what stands behind the stop that ends them, where one does.
#[derive(Drop)]
pub(crate) struct Names<'a> {
    pub(crate) names: ByteStrings,
    pub(crate) behind: Option<&'a [u8]>,
}

impl<'a> Model for Names<'a> {
    ghost Value = { List (List ℕ) × Option (List ℕ) };

    ghost view = { λ s. (s.names, option_copied s.behind) };
}

fn end_mark(stop: Option<u8>) -> Mark
    ensures { result ≡ end_mark stop }
{
    match stop {
        None => Mark::Blank,
        Some(stop) => Mark::BlankOr(stop),
    }
}

fn is_stop(stop: Option<u8>, byte: u8) -> bool
    ensures { result ≡ is_stop stop byte }
{
    match stop {
        None => false,
        Some(stop) => byte == stop,
    }
}

/// The names of a text up to its stop.
#[tactic(auto, using(crate::proofs::NameLemmas::begins, crate::proofs::NameLemmas::ends, crate::proofs::NameLemmas::stops, crate::proofs::NameLemmas::shorter, crate::proofs::NameLemmas::next))]
pub(crate) fn names_of(
    alloc: Global,
    stop: Option<u8>,
    text: &[u8],
) -> Result<Names<'_>, AllocError>
    ensures { IfOk result (λ found. found ≡ names_of stop text.now) }
{
    let mut names = ByteStrings::empty(alloc);
    let mut start = behind_spaces(text);
    while let Some((byte, behind)) = start.split_first() {
        if is_stop(stop, *byte) {
            let behind = Some(behind);
            return Ok(Names { names, behind });
        }
        let found = cut(alloc, end_mark(stop), start)?;
        names.push(found.front.as_slice())?;
        start = behind_spaces(found.left);
    }
    Ok(Names {
        names,
        behind: None,
    })
}

/// The prerequisites of a rule, as they are spelled: a name may be a pattern of files, and stand for members of an archive.
#[derive(Drop)]
pub struct Prerequisites {
    pub names: ByteStrings,
    /// Those behind the first `|`, of which the times don't count.
    pub order_only: ByteStrings,
}

impl Model for Prerequisites {
    ghost Value = { List (List ℕ) × List (List ℕ) };

    ghost view = { λ s. (s.names, s.order_only) };
}

fn names_behind(alloc: Global, text: Option<&[u8]>) -> Result<ByteStrings, AllocError>
    ensures { IfOk result (λ names. names ≡ names_behind (option_copied text.entry)) }
{
    match text {
        None => Ok(ByteStrings::empty(alloc)),
        Some(text) => {
            let found = names_of(alloc, None, text)?;
            Ok(found.names)
        }
    }
}

/// The prerequisites of the text that a rule has of them; where there is a second expansion, of what it comes to.
pub fn prerequisite_names(alloc: Global, text: &[u8]) -> Result<Prerequisites, AllocError>
    ensures { IfOk result (λ found. found ≡ prerequisites text.now) }
{
    let found = names_of(alloc, Some(b'|'), text)?;
    let order_only = names_behind(alloc, found.behind)?;
    Ok(Prerequisites {
        names: found.names,
        order_only,
    })
}

/// What a name is made of.
#[derive(Drop)]
pub struct Form {
    /// The bytes before its `%`; all of them where it has none.
    pub front: Vec<u8>,
    /// Those behind the `%`, where a pattern has one.
    pub behind: Option<Vec<u8>>,
}

impl Model for Form {
    ghost Value = { List ℕ × Option (List ℕ) };

    ghost view = { λ s. (s.front.items, option_map (λ v. v.items) s.behind) };
}

/// The form of a name: a `%` that no backslash quotes makes it a pattern, and before others no backslash is left that quotes them.
pub fn form_of(alloc: Global, name: &[u8]) -> Result<Form, AllocError>
    ensures { IfOk result (λ form. form ≡ form_of name.now) }
{
    let found = cut(alloc, Mark::Byte(b'%'), name)?;
    match found.left.split_first() {
        None => Ok(Form {
            front: found.front,
            behind: None,
        }),
        Some((_, behind)) => {
            let behind = Vec::from_slice(alloc, behind)?;
            Ok(Form {
                front: found.front,
                behind: Some(behind),
            })
        }
    }
}
