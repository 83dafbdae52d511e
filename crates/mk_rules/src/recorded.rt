//! What the state has of a name, and the hidden prerequisites that are recorded there.
ghost use Rattle.std.specs.Prelude.{◌≡◌, ℕ, List, Option, IfOk, IfErr, OnOk};
ghost use Rattle.std.specs.FinMap as finmap;
ghost use Rattle.std.specs.Option.{option_copied};
ghost use Rattle.mk_nodes.specs.Prerequisites.{inputs_of, is_node, hidden_in};
ghost use Rattle.mk_sources.specs.Looks.{Looks};
ghost use Rattle.mk_nodes.specs.Hidden.{HasHidden, IsNamesFault};
ghost use Rattle.mk_rules.specs.NodeNotes.{AreKnownNodes};
ghost use Rattle.mk_rules.specs.Row.{named, IsRow, IsSomeRow};
ghost use Rattle.mk_nodes.specs.declared.file_look.FileLook.{FileLook};

use crate::hidden::add_hidden;
use crate::hidden_marks::HiddenMarks;
use crate::mentioned::Mentioned;
use crate::node_notes::NodeNotes;
use byte_strings::Iter;
use mk_names::Names;
use mk_rule_lines::RuleFault;
use mk_sources::{Rules, Tree};
use st_packed::PackedEntry;
use std::alloc::Global;

/// What the state has of the name.
pub(crate) fn entry_of<'m>(
    rules: &Rules<'m>,
    notes: &mut NodeNotes,
    name: &[u8],
) -> Option<&'m PackedEntry>
    ensures entry { option_copied result ≡ finmap.get rules.now.state.now name.now }
    ensures marks { notes.new.marks.items ≡ notes.old.marks.items }
{
    let (entry, place) = rules.state.near(name, notes.place);
    notes.place = place;
    entry
}

/// Takes in these hidden prerequisites behind the hard ones of the row, and tells which of them are nodes.
#[inline(never)]
fn add_all_hidden<T: Tree>(
    alloc: Global,
    rules: &Rules,
    tree: &mut T,
    names: &mut Names,
    notes: &mut NodeNotes,
    hidden: &Iter<'_>,
) -> Result<HiddenMarks, RuleFault>
    requires noted { (looks : List ℕ → Option FileLook) → T.allows tree.old looks
        → AreKnownNodes (is_node (inputs_of rules.now.lines.now (finmap.get rules.now.state.now) looks)) names.old notes.old.marks.items }
    requires row { IsSomeRow names.old notes.old.row }
    ensures row { OnOk result ((start : List (List ℕ)) → IsRow start names.old notes.old.row → IsRow start names.new notes.new.row) }
    ensures hidden { IfOk result (λ among. (looks : List ℕ → Option FileLook) → T.allows tree.new looks
        → HasHidden (is_node (inputs_of rules.now.lines.now (finmap.get rules.now.state.now) looks)) (named names.old notes.old.row) hidden.now
        (named names.new notes.new.row) among) }
    ensures noted { OnOk result ((looks : List ℕ → Option FileLook) → T.allows tree.new looks
        → AreKnownNodes (is_node (inputs_of rules.now.lines.now (finmap.get rules.now.state.now) looks)) names.new notes.new.marks.items) }
    ensures looks { Looks (T.allows tree.old) (T.allows tree.new) (T.refuses tree.old) (T.refuses tree.new) (T.asked tree.old) (T.asked tree.new) (T.firsts tree.old) (T.firsts tree.new) }
    ensures fault { IfErr result (IsNamesFault (T.refuses tree.new) hidden.now) }
{
    let mut mentioned = Mentioned::new(alloc, notes.take_row(alloc));
    add_hidden(alloc, rules, tree, names, notes, &mut mentioned, hidden)?;
    let Mentioned { nodes, hidden, .. } = mentioned;
    notes.row = nodes;
    Ok(hidden)
}

/// The same of those that may be recorded in an entry: most entries have none.
fn add_listed<T: Tree>(
    alloc: Global,
    rules: &Rules,
    tree: &mut T,
    names: &mut Names,
    notes: &mut NodeNotes,
    hidden: Iter<'_>,
) -> Result<HiddenMarks, RuleFault>
    requires noted { (looks : List ℕ → Option FileLook) → T.allows tree.old looks
        → AreKnownNodes (is_node (inputs_of rules.now.lines.now (finmap.get rules.now.state.now) looks)) names.old notes.old.marks.items }
    requires row { IsSomeRow names.old notes.old.row }
    ensures row { OnOk result ((start : List (List ℕ)) → IsRow start names.old notes.old.row → IsRow start names.new notes.new.row) }
    ensures hidden { IfOk result (λ among. (looks : List ℕ → Option FileLook) → T.allows tree.new looks
        → HasHidden (is_node (inputs_of rules.now.lines.now (finmap.get rules.now.state.now) looks)) (named names.old notes.old.row) hidden.entry
        (named names.new notes.new.row) among) }
    ensures noted { OnOk result ((looks : List ℕ → Option FileLook) → T.allows tree.new looks
        → AreKnownNodes (is_node (inputs_of rules.now.lines.now (finmap.get rules.now.state.now) looks)) names.new notes.new.marks.items) }
    ensures looks { Looks (T.allows tree.old) (T.allows tree.new) (T.refuses tree.old) (T.refuses tree.new) (T.asked tree.old) (T.asked tree.new) (T.firsts tree.old) (T.firsts tree.new) }
    ensures fault { IfErr result (IsNamesFault (T.refuses tree.new) hidden.entry) }
{
    if hidden.len() == 0 {
        return Ok(HiddenMarks::none());
    }
    add_all_hidden(alloc, rules, tree, names, notes, &hidden)
}

/// Takes in the hidden prerequisites that are recorded of a name.
pub(crate) fn add_recorded<T: Tree>(
    alloc: Global,
    rules: &Rules,
    tree: &mut T,
    names: &mut Names,
    notes: &mut NodeNotes,
    recorded: Option<&PackedEntry>,
) -> Result<HiddenMarks, RuleFault>
    requires noted { (looks : List ℕ → Option FileLook) → T.allows tree.old looks
        → AreKnownNodes (is_node (inputs_of rules.now.lines.now (finmap.get rules.now.state.now) looks)) names.old notes.old.marks.items }
    requires row { IsSomeRow names.old notes.old.row }
    ensures row { OnOk result ((start : List (List ℕ)) → IsRow start names.old notes.old.row → IsRow start names.new notes.new.row) }
    ensures hidden { IfOk result (λ among. (looks : List ℕ → Option FileLook) → T.allows tree.new looks
        → HasHidden (is_node (inputs_of rules.now.lines.now (finmap.get rules.now.state.now) looks)) (named names.old notes.old.row) (hidden_in (option_copied recorded.entry))
        (named names.new notes.new.row) among) }
    ensures noted { OnOk result ((looks : List ℕ → Option FileLook) → T.allows tree.new looks
        → AreKnownNodes (is_node (inputs_of rules.now.lines.now (finmap.get rules.now.state.now) looks)) names.new notes.new.marks.items) }
    ensures looks { Looks (T.allows tree.old) (T.allows tree.new) (T.refuses tree.old) (T.refuses tree.new) (T.asked tree.old) (T.asked tree.new) (T.firsts tree.old) (T.firsts tree.new) }
    ensures fault { IfErr result (IsNamesFault (T.refuses tree.new) (hidden_in (option_copied recorded.entry))) }
{
    match recorded {
        Some(entry) => add_listed(alloc, rules, tree, names, notes, entry.hidden()),
        None => Ok(HiddenMarks::none()),
    }
}
