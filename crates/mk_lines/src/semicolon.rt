//! Rule lines whose recipe begins behind a `;`.
ghost use Rattle.std.specs.Prelude.{◌≡◌};
ghost use Rattle.std.specs.List.{list_any};
ghost use Rattle.mk_lines.specs.Text.{is_semicolon};
ghost use Rattle.mk_lines.specs.Semicolon.{opens_recipe};

use crate::recipe_search::RecipeSearch;
use mk_profile::Profile;

fn has_semicolon(bytes: &[u8]) -> bool
    ensures { result ≡ list_any is_semicolon bytes.now }
{
    bytes.contains(&b';')
}

/// Whether the line is that of a rule with a recipe behind `;`, where a `#` is the shell's.
pub fn opens_recipe(text: &[u8]) -> bool
    ensures { result ≡ opens_recipe text.now }
{
    has_semicolon(text)
        && RecipeSearch::begin(false, Profile::Posix)
            .past(text)
            .is_in_recipe()
}
