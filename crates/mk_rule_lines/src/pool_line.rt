//! What a line of `.POOL` says.
ghost use Rattle.std.specs.Prelude.{◌≡◌, OnOk};
ghost use Rattle.mk_names.specs.Names.{all_added};
ghost use Rattle.mk_rule_lines.specs.Pools.{is_pool, if_of_recipes, most_said, members_in};

use crate::line_words::LineWords;
use crate::rule_line::RuleLine;
use byte_strings::{Words, number_of};
use mk_names::Names;
use mk_reader::SpecialName;
use std::alloc::{AllocError, Global};

/// How many recipes may run at once at most.
const MOST: u16 = 256;

/// Whether the line is one of `.POOL`.
pub fn is_pool(line: &RuleLine) -> bool
    ensures { result ≡ is_pool line.now.special }
{
    match line.special {
        Some(SpecialName::Pool) => true,
        _ => false,
    }
}

// The number, where so many recipes may run at once.
fn if_of_recipes(number: u16) -> Option<u16>
    ensures { result ≡ if_of_recipes number }
{
    if 1 <= number && number <= MOST {
        Some(number)
    } else {
        None
    }
}

/// How many recipes of a pool may run at once, as the first of these words says.
pub fn most_said(words: &LineWords) -> Option<u16>
    ensures { result ≡ most_said words.now }
{
    if_of_recipes(number_of(words.first()?)?)
}

/// The targets that these words name.
pub(crate) fn members_in(words: &LineWords) -> Words<'_>
    ensures { result ≡ members_in words.now }
{
    let mut left = words.iter();
    let _number = left.next();
    left
}

/// Takes in the targets that a line names.
pub fn add_members(alloc: Global, names: &mut Names, line: &RuleLine) -> Result<(), AllocError>
    ensures { OnOk result (names.new ≡ all_added names.old (members_in line.now.prerequisites)) }
{
    for word in members_in(&line.prerequisites) {
        let _new = names.mention(alloc, word)?;
    }
    Ok(())
}
