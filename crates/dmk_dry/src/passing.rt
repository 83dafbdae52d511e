//! The nodes of a graph passed in its order, and what is listed on the way.
ghost use Rattle.std.specs.Prelude.{◌≡◌, ◌<◌, ◌||◌, true, List, length, nat_lt, IfOk, IfErr, OnOk, ◌++◌};
ghost use Rattle.std.specs.List.{list_all};
ghost use Rattle.mk_plan.specs.Passage.{Passage};
ghost use Rattle.mk_plan.specs.Passing.{told_in};
ghost use Rattle.dmk_dry.specs.AlwaysRun.{always_behind, always_passed, always_from, lines_run_always};
ghost use Rattle.dmk_reading.specs.Passing.{IsListing, PassesEach, lists_any};
ghost use Rattle.dmk_dry.specs.Listing.{IsListingFault, printed_line, printed, recipe_in, text_of, listing_text};

use crate::always_run::{AlwaysRun, add_line, add_lines};
use byte_strings::ByteStrings;
use dmk_reading::{is_lost, lost_nodes};
use mk_nodes::Graph;
use mk_plan::{Passed, RecipeFault, Telling, has_text_names, name_of, pass_in, told_lines};
use mk_recipe::Line;
use std::alloc::{AllocError, Global};

/// What is printed of the targets that a listing is of.
#[derive(Clone, Copy)]
pub struct Shows {
    /// How much is told of why they are made.
    pub telling: Telling,
    /// Their recipes are printed too.
    pub recipes: bool,
}

/// What a run over a graph's nodes lists.
#[derive(Drop)]
pub struct Listing {
    /// What is shown, in lines with a newline each.
    pub text: Vec<u8>,
    /// Some recipe is listed, if only one of blank lines.
    pub lists_any: bool,
    /// The lines that are run in a dry run too, in the listing's order.
    pub always: Vec<AlwaysRun>,
}

/// Appends a line as it is printed: without prefixes, and no blank one.
fn append_line(text: &mut Vec<u8>, line: &Line) -> Result<(), AllocError>
    ensures { OnOk result (text.new.items ≡ text.old.items ++ printed_line line.now) }
{
    if !line.is_blank() {
        text.extend_from_slice(line.text.as_slice())?;
        text.push(b'\n')?;
    }
    Ok(())
}

/// Appends what is told, each line with a newline.
fn append_told(text: &mut Vec<u8>, told: &ByteStrings) -> Result<(), AllocError>
    ensures { OnOk result (text.new.items ≡ text.old.items ++ text_of told.now) }
{
    for line in told.iter() {
        text.extend_from_slice(line)?;
        text.push(b'\n')?;
    }
    Ok(())
}

impl Listing {
    /// Takes in the lines of a recipe that is printed.
    #[tactic(auto, unfolding(crate::specs::AlwaysRun::always_behind))]
    fn add_printed(
        &mut self,
        alloc: Global,
        target: &[u8],
        lines: &[Line],
    ) -> Result<(), AllocError>
        ensures text { OnOk result (self.new.text.items ≡ self.old.text.items ++ printed lines.now) }
        ensures always { OnOk result (self.new.always.items
            ≡ self.old.always.items ++ always_behind target.now (length self.old.text.items) lines.now) }
        ensures any { self.new.lists_any ≡ self.old.lists_any }
    {
        for line in lines {
            append_line(&mut self.text, line)?;
            add_line(alloc, &mut self.always, target, self.text.len(), line)?;
        }
        Ok(())
    }

    /// Takes in the recipe of a listed node.
    fn add_recipe(
        &mut self,
        alloc: Global,
        recipes: bool,
        target: &[u8],
        passed: &Passed,
    ) -> Result<(), AllocError>
        ensures text { OnOk result (self.new.text.items ≡ self.old.text.items ++ recipe_in recipes passed.now) }
        ensures always { OnOk result (self.new.always.items
            ≡ self.old.always.items ++ always_passed recipes target.now (length self.old.text.items) passed.now) }
        ensures any { self.new.lists_any ≡ self.old.lists_any }
    {
        match passed {
            Passed::Listed(_, lines) if recipes => self.add_printed(alloc, target, lines),
            Passed::Listed(_, lines) => {
                add_lines(alloc, &mut self.always, target, self.text.len(), lines)
            }
            _ => Ok(()),
        }
    }

    /// Takes in what passing a node came to.
    fn add(
        &mut self,
        alloc: Global,
        shows: Shows,
        graph: &Graph,
        node: usize,
        passed: &Passed,
    ) -> Result<(), AllocError>
        ensures text { OnOk result (self.new.text.items
            ≡ self.old.text.items ++ listing_text shows.telling shows.recipes (told_in graph.now node passed.now)) }
        ensures any { OnOk result (self.new.lists_any ≡ (self.old.lists_any || lists_any (told_in graph.now node passed.now))) }
        ensures always { OnOk result (self.new.always.items ≡ self.old.always.items
            ++ always_from shows.telling shows.recipes (length self.old.text.items) (told_in graph.now node passed.now)) }
    {
        let told = told_lines(alloc, shows.telling, graph, node, passed)?;
        append_told(&mut self.text, &told)?;
        self.add_recipe(alloc, shows.recipes, name_of(graph, node), passed)?;
        self.lists_any = self.lists_any || passed.is_listed();
        Ok(())
    }
}

/// What there is to tell of all nodes that aren't lost, in the graph's order: the recipes of those that are out of date, and why they are.
#[tactic(auto, unfolding(crate::specs::AlwaysRun::always_from))]
pub fn listing_of(
    alloc: Global,
    keeping: bool,
    shows: Shows,
    graph: &Graph,
) -> Result<Listing, RecipeFault>
    requires order { list_all (λ n. nat_lt n (length graph.now.nodes.items)) graph.now.order.items ≡ true }
    requires plan { PassesEach graph.now }
    ensures listing { IfOk result (λ found. (plan : List Passage) × IsListing keeping graph.now plan
        × (found.text.items ≡ listing_text shows.telling shows.recipes plan) × (found.lists_any ≡ lists_any plan)
        × (found.always.items ≡ lines_run_always shows.telling shows.recipes plan)) }
    ensures fault { IfErr result (IsListingFault keeping graph.now) }
{
    let mut marks = vec![in alloc; false; graph.len()]?;
    let mut listing = Listing {
        text: Vec::new(alloc),
        lists_any: false,
        always: Vec::new(alloc),
    };
    let texts = has_text_names(graph);
    let lost = lost_nodes(alloc, graph)?;
    for node in graph.order.as_slice() {
        if is_lost(&lost, *node) {
            continue;
        }
        let passed = pass_in(alloc, keeping, texts, graph, &marks, *node)?;
        marks[*node] = passed.is_remade();
        listing.add(alloc, shows, graph, *node, &passed)?;
    }
    Ok(listing)
}
