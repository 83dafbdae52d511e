//! Prerequisites by name, given their numbers straight from the words of the lines.
ghost use Rattle.std.specs.Prelude.{◌≡◌, ℕ, Bool, List, OnOk};
ghost use Rattle.mk_names.specs.Names.{all_added};
ghost use Rattle.mk_rule_lines.specs.Explicit.{names_in, numbers_of, explicit_of};
ghost use Rattle.mk_rules.specs.NodeNotes.{AreKnownNodes};
ghost use Rattle.mk_rules.specs.Row.{named, IsRow, IsSomeRow};

use crate::distinct_numbers::DistinctNumbers;
use crate::followers::Followers;
use crate::mentioned::mention_name;
use mk_names::Names;
use mk_rule_lines::{RuleLine, is_bar, is_wait};
use std::alloc::{AllocError, Global};

/// Mentions the prerequisites of a line, without order-only ones.
fn mention_line(
    alloc: Global,
    names: &mut Names,
    followers: &mut Followers,
    numbers: &mut DistinctNumbers,
    line: &RuleLine,
) -> Result<(), AllocError>
    requires { IsSomeRow names.old numbers.old }
    ensures row { OnOk result ((start : List (List ℕ)) → IsRow start names.old numbers.old → IsRow start names.new numbers.new) }
    ensures known { OnOk result ((is_node : List ℕ → Bool) (marks : List Bool) → AreKnownNodes is_node names.old marks → AreKnownNodes is_node names.new marks) }
    ensures named { OnOk result (named names.new numbers.new ≡ all_added (named names.old numbers.old) (names_in line.now)) }
{
    for word in line.prerequisites.iter() {
        if is_bar(line.profile, word) {
            return Ok(());
        }
        if is_wait(word) {
            continue;
        }
        mention_name(alloc, names, followers, numbers, word)?;
    }
    Ok(())
}

/// Mentions what a name is made from by name, which the lines of these numbers make.
pub(crate) fn mention_explicit(
    alloc: Global,
    names: &mut Names,
    followers: &mut Followers,
    numbers: &mut DistinctNumbers,
    lines: &[RuleLine],
    making: &[usize],
) -> Result<(), AllocError>
    requires { IsSomeRow names.old numbers.old }
    ensures row { OnOk result ((start : List (List ℕ)) → IsRow start names.old numbers.old → IsRow start names.new numbers.new) }
    ensures known { OnOk result ((is_node : List ℕ → Bool) (marks : List Bool) → AreKnownNodes is_node names.old marks → AreKnownNodes is_node names.new marks) }
    ensures named { OnOk result ((name : List ℕ) → making.now ≡ numbers_of lines.now name
        → named names.new numbers.new ≡ all_added (named names.old numbers.old) (explicit_of lines.now name)) }
{
    for number in making {
        let Some(line) = lines.get(*number) else {
            continue;
        };
        mention_line(alloc, names, followers, numbers, line)?;
    }
    Ok(())
}
