//! The hidden prerequisites of a target, by what its report and its depfiles name.
ghost use Rattle.std.specs.Prelude.{◌≡◌, ◌∷◌, ◌++◌, [], IfOk, OnOk};
ghost use Rattle.mk_names.specs.Names.{all_added};
ghost use Rattle.jb_recipe.specs.Hidden.{AreHidden, AreMore, no_hidden};

use byte_strings::ByteStrings;
use mk_names::Names;
use std::alloc::{AllocError, Global};

fn no_hidden(alloc: Global, target: &[u8], known: &ByteStrings) -> Result<Names, AllocError>
    ensures { IfOk result (λ names. names ≡ no_hidden target.now known.now) }
{
    let mut names = Names::new(alloc);
    let _is_new = names.mention(alloc, target)?;
    for name in known {
        let _is_new = names.mention(alloc, name)?;
    }
    Ok(names)
}

fn add(
    alloc: Global,
    names: &mut Names,
    found: &mut ByteStrings,
    mentioned: &ByteStrings,
) -> Result<(), AllocError>
    ensures { OnOk result (AreMore names.old found.old mentioned.now names.new found.new) }
{
    for name in mentioned {
        if names.mention(alloc, name)? {
            found.push(name)?;
        }
    }
    Ok(())
}

/// The hidden prerequisites of a target, of which these are known to the makefile: what the one list mentions, and then the other.
pub(crate) fn hidden_by(
    alloc: Global,
    target: &[u8],
    known: &ByteStrings,
    reported: &ByteStrings,
    named: &ByteStrings,
) -> Result<ByteStrings, AllocError>
    ensures { IfOk result (λ hidden. AreHidden target.now known.now (reported.now ++ named.now) hidden) }
{
    let mut names = no_hidden(alloc, target, known)?;
    let mut found = ByteStrings::empty(alloc);
    add(alloc, &mut names, &mut found, reported)?;
    add(alloc, &mut names, &mut found, named)?;
    Ok(found)
}
