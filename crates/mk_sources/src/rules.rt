//! What a makefile's rules and the state say of a name.
ghost use Rattle.std.specs.Prelude.{◌≡◌, ℕ, List, Option, false, [], slice_get, option_to_list, IfOk, IfErr};
ghost use Rattle.std.specs.FinMap as map;
ghost use Rattle.std.specs.Option.{option_copied, option_map_or, option_or};
ghost use Rattle.mk_rule_lines.specs.Rules.{has, suffixes_of, targets_by, places, recipe_places};
ghost use Rattle.mk_nodes.specs.Chain.{steps_of};
ghost use Rattle.mk_nodes.specs.Links.{AreLinks};
ghost use Rattle.mk_sources.specs.Search.{IsSearchFault};
ghost use Rattle.mk_sources.specs.Looks.{Looks};
ghost use Rattle.mk_makefile.specs.Table.{named_at};
ghost use Rattle.mk_sources.specs.There.{is_there};
ghost use Rattle.mk_makefile.specs.Doubles.{first_double};
ghost use Rattle.mk_rule_lines.specs.Explicit.{numbers_of, order_only_in};
ghost use Rattle.mk_makefile.specs.Forms.{forms_of};
ghost use Rattle.mk_nodes.specs.Prerequisites.{any_or, default_of};
ghost use Rattle.mk_nodes.specs.declared.file_look.FileLook.{FileLook};

use crate::chain::{Makers, source_in};
use crate::left_over::is_left;
use crate::tree::Tree;
use crate::wanted::from_wanted;
use byte_strings::ByteStrings;
use mk_makefile::{Form, Source, TargetTable, first_double};
use mk_nodes::Stamp;
use mk_rule_lines::{RuleFault, RuleLine, explicit_of, is_phony, may_have_bar, order_only_of};
use st_packed::PackedEntry;
use st_state::State;
use std::alloc::{AllocError, Global};

/// The rule lines of a makefile with what was made of them, and the state.
#[derive(Drop)]
pub struct Rules<'m> {
    pub lines: &'m [RuleLine],
    pub targets: &'m TargetTable,
    pub forms: &'m [Form],
    pub state: &'m State,
    /// How many rules a chain may have before its last one.
    pub steps: usize,
    /// Of each form, whether a chain may go on behind it.
    pub links: &'m [bool],
    /// The line of `.DEFAULT`, if there is one.
    pub default: Option<usize>,
    pub ghost named: { (name : List ℕ) → (named_at targets.now name).lines
        ≡ places (λ l. has name (targets_by false (suffixes_of lines.now) l)) 0 lines.now },
    pub ghost recipes: { (name : List ℕ) → option_to_list (named_at targets.now name).recipe
        ≡ recipe_places (targets_by false (suffixes_of lines.now)) 0 lines.now name },
    pub ghost all_forms: { forms.now ≡ forms_of (suffixes_of lines.now) lines.now },
    pub ghost few: { steps ≡ steps_of lines.now },
    pub ghost linked: { AreLinks forms.now links.now },
    pub ghost left_over: { default ≡ default_of lines.now },
}

/// The number of this line, or else of the first one with `::` that has a recipe.
fn own_or_first(lines: &[RuleLine], numbers: &[usize], recipe: Option<usize>) -> Option<usize>
    ensures { (name : List ℕ) → numbers.now ≡ numbers_of lines.now name
        → option_to_list result ≡ any_or (option_to_list recipe) (first_double lines.now name) }
{
    match recipe {
        Some(number) => Some(number),
        None => first_double(lines, numbers),
    }
}

/// Whether a bar may stand in the line of this number. Where it may not, the line has no order-only prerequisites.
fn may_have_bar_at(lines: &[RuleLine], number: usize) -> bool
    ensures { result ≡ false → option_map_or order_only_in (slice_get lines.now number) [] ≡ [] }
{
    match lines.get(number) {
        Some(line) => may_have_bar(line),
        None => false,
    }
}

impl<'m> Rules<'m> {
    ghost use Rattle.mk_rule_lines.specs.Explicit.{numbers_of, explicit_of, order_only_of, is_phony};
    ghost use Rattle.mk_nodes.specs.Prerequisites.{Inputs, own_recipes, is_target, left_recipe};
    ghost use Rattle.mk_nodes.specs.Chain.{source_in};
    ghost use Rattle.mk_nodes.specs.Wanted.{from_wanted};

    /// The numbers of the lines that make the name, in order, and of the one that has its recipe, or the first of its lines with `::`.
    pub fn named(&self, name: &[u8]) -> (&[usize], Option<usize>)
        ensures lines { result.0.now ≡ numbers_of self.now.lines.now name.now }
        ensures recipe { option_to_list result.1 ≡ own_recipes self.now.lines.now name.now }
    {
        let (numbers, recipe) = self.targets.named(name);
        (numbers, own_or_first(self.lines, numbers, recipe))
    }

    /// The same as `named`, and the place to hand over with the next name: the target there is tried first.
    pub fn near(&self, name: &[u8], place: u32) -> (&[usize], Option<usize>, u32)
        ensures lines { result.0.now ≡ numbers_of self.now.lines.now name.now }
        ensures recipe { option_to_list result.1 ≡ own_recipes self.now.lines.now name.now }
    {
        let (numbers, recipe, next) = self.targets.near(name, place);
        (numbers, own_or_first(self.lines, numbers, recipe), next)
    }

    /// Whether some line makes the name.
    pub fn is_target(&self, name: &[u8]) -> bool
        ensures { result ≡ is_target self.now.lines.now name.now }
    {
        self.targets.is_target(name)
    }

    /// The line whose recipe makes the name where no rule does, which the lines of these numbers make and of which this is seen.
    pub fn left_recipe(&self, name: &[u8], numbers: &[usize], stamp: &Stamp) -> Option<usize>
        requires { numbers.now ≡ numbers_of self.now.lines.now name.now }
        ensures { (inputs : Inputs) → inputs.lines ≡ self.now.lines.now → inputs.looks name.now ≡ stamp.now
            → inputs.entries name.now ≡ map.get self.now.state.now name.now → result ≡ left_recipe inputs name.now }
    {
        // Without a `.DEFAULT` the state isn't asked.
        let Some(line) = self.default else {
            return None;
        };
        if !is_left(numbers, stamp, self.entry(name)) {
            return None;
        }
        Some(line)
    }

    /// Whether these lines may have order-only prerequisites, told without cutting them into words. Where they may not, there are none.
    pub fn may_have_order_only(&self, numbers: &[usize]) -> bool
        ensures { result ≡ false → (name : List ℕ) → numbers.now ≡ numbers_of self.now.lines.now name → order_only_of self.now.lines.now name ≡ [] }
    {
        for number in numbers {
            if may_have_bar_at(self.lines, *number) {
                return true;
            }
        }
        false
    }

    /// The prerequisites by name of the name that the lines of these numbers make.
    pub fn explicit(&self, alloc: Global, numbers: &[usize]) -> Result<ByteStrings, AllocError>
        ensures { IfOk result (λ found. (name : List ℕ) → numbers.now ≡ numbers_of self.now.lines.now name
            → found ≡ explicit_of self.now.lines.now name) }
    {
        explicit_of(alloc, self.lines, numbers)
    }

    /// The order-only prerequisites of the name that the lines of these numbers make.
    pub fn order_only(&self, alloc: Global, numbers: &[usize]) -> Result<ByteStrings, AllocError>
        ensures { IfOk result (λ found. (name : List ℕ) → numbers.now ≡ numbers_of self.now.lines.now name
            → found ≡ order_only_of self.now.lines.now name) }
    {
        order_only_of(alloc, self.lines, numbers)
    }

    /// Whether the name that the lines of these numbers make is phony.
    pub fn is_phony(&self, numbers: &[usize]) -> bool
        ensures { (name : List ℕ) → numbers.now ≡ numbers_of self.now.lines.now name → result ≡ is_phony self.now.lines.now name }
    {
        is_phony(self.lines, numbers)
    }

    /// What implicit rules make the name from: what is there, or rules can make, or else what ought to exist.
    pub fn source<T: Tree>(
        &self,
        alloc: Global,
        tree: &mut T,
        name: &[u8],
    ) -> Result<Option<Source>, RuleFault>
        ensures source { IfOk result (λ found. (looks : List ℕ → Option FileLook) → T.allows tree.new looks
            → found ≡ option_or (source_in (is_there self.now.targets.now looks) self.now.forms.now self.now.steps name.now)
            (from_wanted (is_target self.now.lines.now) self.now.lines.now self.now.forms.now name.now)) }
        ensures looks { Looks (T.allows tree.old) (T.allows tree.new) (T.refuses tree.old) (T.refuses tree.new) (T.asked tree.old) (T.asked tree.new) (T.firsts tree.old) (T.firsts tree.new) }
        ensures fault { IfErr result (IsSearchFault self.now.targets.now (T.allows tree.new) (T.refuses tree.new) self.now.forms.now self.now.steps name.now) }
    {
        let makers = Makers {
            targets: self.targets,
            forms: self.forms,
            links: self.links,
        };
        if let Some(source) = source_in(alloc, &makers, tree, self.steps, name)? {
            return Ok(Some(source));
        }
        Ok(from_wanted(alloc, self, name)?)
    }

    /// What the state has of the name.
    pub fn entry(&self, name: &[u8]) -> Option<&PackedEntry>
        ensures { option_copied result ≡ map.get self.now.state.now name.now }
    {
        self.state.get(name)
    }
}
