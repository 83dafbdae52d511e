//! A makefile's rule lines with what is made of them once.
ghost use Rattle.std.specs.Prelude.{◌≡◌, ◌≤◌, ◌⊎◌, ℕ, List, length, true, false, IfOk, IfErr, OnOk};
ghost use Rattle.mk_macros.specs.Ranks.{defined_by};
ghost use Rattle.mk_makefile.specs.Forms.{forms_of};
ghost use Rattle.mk_makefile.specs.InForce.{AreLinesInForce};
ghost use Rattle.mk_rule_lines.specs.Lines.{behind_items, IsLinesFault};
ghost use Rattle.mk_rule_lines.specs.Rules.{suffixes_of, targets_by, recipe_places};
ghost use Rattle.mk_makefile.specs.Table.{IsTable, IsTableFault};
ghost use Rattle.mk_makefile.specs.Taken.{AreTaken, IsTakingFault};

use crate::counting::in_force;
use crate::doubles::check_kinds;
use crate::form::Form;
use crate::forms::forms_of;
use crate::supported::check_lines;
use crate::table::TargetTable;
use byte_strings::ByteStrings;
use mk_macros::Macros;
use mk_reader::Item;
use mk_rule_lines::{RuleFault, RuleLine, check_pools, rule_lines, suffixes_of};
use std::alloc::Global;

/// Rule lines that are taken, and what stands in them.
#[derive(Drop)]
pub struct Makefile {
    pub lines: Vec<RuleLine>,
    pub suffixes: ByteStrings,
    pub targets: TargetTable,
    pub forms: Vec<Form>,
    pub ghost suffixes_are: { suffixes ≡ suffixes_of lines.items },
    pub ghost table: { IsTable (targets_by false (suffixes_of lines.items)) lines.items targets },
    pub ghost all_forms: { forms.items ≡ forms_of (suffixes_of lines.items) lines.items },
    pub ghost taken: { AreTaken lines.items },
}

/// The implicit rules of a makefile's lines, unless a suffix rule has two recipes.
fn implicit_rules(
    alloc: Global,
    lines: &[RuleLine],
    suffixes: &ByteStrings,
) -> Result<Vec<Form>, RuleFault>
    ensures forms { IfOk result (λ forms. forms.items ≡ forms_of suffixes.now lines.now) }
    ensures recipes { OnOk result ((name : List ℕ) → length (recipe_places (targets_by true suffixes.now) 0 lines.now name) ≤ 1) }
    ensures fault { IfErr result (IsTableFault (targets_by true suffixes.now) lines.now) }
{
    let suffix_rules = TargetTable::of_lines(alloc, lines, suffixes, true)?;
    Ok(forms_of(alloc, lines, suffixes, &suffix_rules)?)
}

impl Makefile {
    /// Takes in a makefile's items: its rule lines that count, each expanded with the definitions above it. The macros take in the
    /// definitions.
    pub fn of_items(
        alloc: Global,
        items: Vec<Item>,
        macros: &mut Macros,
    ) -> Result<Makefile, RuleFault>
        ensures lines { IfOk result (λ makefile. AreLinesInForce (defined_by macros.old) items.items makefile.lines.items) }
        ensures macros { OnOk result (defined_by macros.new ≡ behind_items (defined_by macros.old) items.items) }
        ensures fault { IfErr result (λ fault. IsLinesFault (defined_by macros.old) items.items fault
            ⊎ ((lines : List RuleLine) × AreLinesInForce (defined_by macros.old) items.items lines × IsTakingFault lines fault)) }
    {
        let profile = macros.profile();
        let all = rule_lines(alloc, items, macros)?;
        let lines = in_force(alloc, profile, all)?;
        Makefile::of_lines(alloc, lines)
    }

    /// Takes in rule lines, unless one is refused, or a name has both kinds of rules or two recipes.
    fn of_lines(alloc: Global, lines: Vec<RuleLine>) -> Result<Makefile, RuleFault>
        ensures lines { IfOk result (λ makefile. makefile.lines ≡ lines) }
        ensures fault { IfErr result (IsTakingFault lines.items) }
    {
        check_lines(&lines)?;
        check_kinds(alloc, &lines)?;
        let suffixes = suffixes_of(alloc, &lines)?;
        let targets = TargetTable::of_lines(alloc, &lines, &suffixes, false)?;
        let forms = implicit_rules(alloc, &lines, &suffixes)?;
        check_pools(alloc, &lines)?;
        Ok(Makefile {
            lines,
            suffixes,
            targets,
            forms,
        })
    }
}
