//! Whether a recipe without references gives just the commands that the state has. Nothing is copied, and no words are gathered.
ghost use Rattle.std.specs.Prelude.{◌≡◌, ◌==◌, []};
ghost use Rattle.std.specs.Bool.{OnTrue};
ghost use Rattle.std.specs.List.{list_any};
ghost use Rattle.mk_macros.specs.Expansion.{Meanings};
ghost use Rattle.mk_plan.specs.Finished.{GivesFirst, GivesCommands};
ghost use Rattle.mk_plan.specs.Simple.{KeepsFirst, IsItsOwn};

use byte_strings::Iter;
use mk_macros::MAX_EXPANSION_BYTES;
use mk_reader::RecipeLine;
use mk_recipe::kept_of_expanded;
use mk_seen::is_same;

fn has_reference(text: &[u8]) -> bool
    ensures { result ≡ list_any (λ b. b == 36) text.now }
{
    text.contains(&b'$')
}

/// Whether a text is its own expansion: it has no reference, and isn't too long.
#[tactic(auto, using(crate::proofs::SimpleLemmas::its_own))]
fn is_its_own(text: &[u8]) -> bool
    ensures { OnTrue result (IsItsOwn text.now) }
{
    text.len() <= MAX_EXPANSION_BYTES && !has_reference(text)
}

/// Takes what the state keeps of an expanded line from the front of these commands; false where it doesn't stand there.
fn takes_kept(expanded: &[u8], commands: &mut Iter<'_>) -> bool
    ensures { OnTrue result (KeepsFirst expanded.now commands.old commands.new) }
{
    match kept_of_expanded(expanded) {
        None => true,
        Some(kept) => match commands.next() {
            Some(command) => is_same(command, kept),
            None => false,
        },
    }
}

/// As `takes_kept`, of a line that has no reference; false where it has one.
fn takes_first(raw: &RecipeLine, commands: &mut Iter<'_>) -> bool
    ensures { OnTrue result ((meanings : Meanings) → GivesFirst meanings raw.now commands.old commands.new) }
{
    let text = raw.text.as_slice();
    is_its_own(text) && takes_kept(text, commands)
}

pub fn is_over(commands: Iter<'_>) -> bool
    ensures { OnTrue result (commands.entry ≡ []) }
{
    let mut commands = commands;
    commands.next().is_none()
}

/// Whether these are the commands that the lines give the state to keep, of which none has a reference.
pub fn gives_simply(recipe: &[RecipeLine], commands: Iter<'_>) -> bool
    ensures { OnTrue result ((meanings : Meanings) → GivesCommands meanings recipe.now commands.entry) }
{
    let mut left = commands;
    for raw in recipe {
        if !takes_first(raw, &mut left) {
            return false;
        }
    }
    is_over(left)
}
