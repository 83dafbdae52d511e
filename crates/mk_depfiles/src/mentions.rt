//! Names, each once, in the order of their first mention.
ghost use Rattle.std.specs.Prelude.{◌≡◌, [], map, IfOk, OnOk};
ghost use Rattle.mk_short_names.specs.Short.{short_name};
ghost use Rattle.mk_depfiles.specs.Depfile.{first_mentions};
ghost use Rattle.mk_depfiles.specs.Gathering.{mentioned};

use byte_strings::ByteStrings;
use mk_short_names::short_name;
use std::alloc::{AllocError, Global};
use std::collections::BTreeSet;

fn push_new(names: &mut ByteStrings, is_new: bool, name: &[u8]) -> Result<(), AllocError>
    ensures { OnOk result (names.new ≡ mentioned is_new names.old name.now) }
{
    if is_new {
        return names.push(name);
    }
    Ok(())
}

/// These names without a `./` in front, each once.
pub fn first_mentions(alloc: Global, names: &ByteStrings) -> Result<ByteStrings, AllocError>
    ensures { IfOk result (λ once. once ≡ first_mentions [] (map short_name names.now)) }
{
    let mut seen = BTreeSet::new(alloc);
    let mut once = ByteStrings::empty(alloc);
    for name in names.iter() {
        let name = short_name(name);
        let is_new = seen.insert(Vec::from_slice(alloc, name)?)?;
        push_new(&mut once, is_new, name)?;
    }
    Ok(once)
}
