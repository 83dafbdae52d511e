//! Looks for the `;` behind which the recipe of a rule line begins. A line may be read in parts.
ghost use Rattle.std.specs.Prelude.{◌≡◌};
ghost use Rattle.mk_profile.specs.Profile.{is_wide};
ghost use Rattle.mk_lines.specs.Search.{before_sign, behind_sign, behind_colon, next_stage, is_in_recipe, is_settled, first_stage, begun, step, HasRead};

use crate::quoted::{quotes, seen};
use crate::reference::{Place, is_outside, next_place};
use mk_profile::Profile;

/// How far a line has been read.
#[derive(Clone, Copy)]
pub enum Stage {
    BeforeSign(Place),
    FirstColon,
    SecondColon,
    ThirdColon,
    /// Behind the sign of a rule.
    BehindSign(Place),
    InRecipe,
    /// The line is no rule's, or a comment comes first.
    NoRecipe,
}

#[derive(Clone, Copy)]
pub struct RecipeSearch {
    pub stage: Stage,
    /// Whether the next byte stands behind a backslash that quotes.
    pub is_quoted: bool,
}

#[tactic(auto, unfolding(crate::specs::Search::before_sign))]
fn before_sign(place: Place, byte: u8) -> Stage
    ensures { result ≡ before_sign place byte }
{
    if is_outside(place) && byte == b':' {
        Stage::FirstColon
    } else if byte == b'#' || (is_outside(place) && byte == b'=') {
        Stage::NoRecipe
    } else {
        Stage::BeforeSign(next_place(place, byte))
    }
}

#[tactic(auto, unfolding(crate::specs::Search::behind_sign))]
fn behind_sign(place: Place, byte: u8) -> Stage
    ensures { result ≡ behind_sign place byte }
{
    if byte == b'#' {
        Stage::NoRecipe
    } else if is_outside(place) && byte == b';' {
        Stage::InRecipe
    } else {
        Stage::BehindSign(next_place(place, byte))
    }
}

/// Behind a colon that may begin the sign of a definition.
#[tactic(auto, unfolding(crate::specs::Search::behind_colon))]
fn behind_colon(another: Stage, byte: u8) -> Stage
    ensures { result ≡ behind_colon another byte }
{
    match byte {
        b'=' => Stage::NoRecipe,
        b':' => another,
        _ => behind_sign(Place::Outside, byte),
    }
}

#[tactic(auto, unfolding(crate::specs::Search::next_stage))]
fn next_stage(stage: Stage, byte: u8) -> Stage
    ensures { result ≡ next_stage stage byte }
{
    match stage {
        Stage::BeforeSign(place) => before_sign(place, byte),
        Stage::FirstColon => behind_colon(Stage::SecondColon, byte),
        Stage::SecondColon => behind_colon(Stage::ThirdColon, byte),
        Stage::ThirdColon => behind_colon(Stage::BehindSign(Place::Outside), byte),
        Stage::BehindSign(place) => behind_sign(place, byte),
        Stage::InRecipe => Stage::InRecipe,
        Stage::NoRecipe => Stage::NoRecipe,
    }
}

fn first_stage(is_recipe: bool, is_wide: bool) -> Stage
    ensures { result ≡ first_stage is_recipe is_wide }
{
    if is_recipe {
        Stage::InRecipe
    } else if is_wide {
        Stage::BeforeSign(Place::Outside)
    } else {
        Stage::NoRecipe
    }
}

impl RecipeSearch {
    /// A search at the front of a line, which may be a recipe line.
    pub fn begin(is_recipe: bool, profile: Profile) -> RecipeSearch
        ensures { result ≡ begun is_recipe (is_wide profile) }
    {
        RecipeSearch {
            stage: first_stage(is_recipe, profile.is_wide()),
            is_quoted: false,
        }
    }

    /// Whether what follows belongs to a recipe.
    pub fn is_in_recipe(self) -> bool
        ensures { result ≡ is_in_recipe self.stage }
    {
        matches!(self.stage, Stage::InRecipe)
    }

    fn is_settled(self) -> bool
        ensures { result ≡ is_settled self.stage }
    {
        matches!(self.stage, Stage::InRecipe | Stage::NoRecipe)
    }

    fn step(self, byte: u8) -> RecipeSearch
        ensures { result ≡ step self byte }
    {
        RecipeSearch {
            stage: next_stage(self.stage, seen(self.is_quoted, byte)),
            is_quoted: quotes(self.is_quoted, byte),
        }
    }

    /// The search behind these bytes.
    pub fn past(self, bytes: &[u8]) -> RecipeSearch
        ensures { HasRead self bytes.now result }
    {
        let mut search = self;
        let mut rest = bytes;
        while let Some((byte, after)) = rest.split_first() {
            if search.is_settled() {
                return search;
            }
            search = search.step(*byte);
            rest = after;
        }
        search
    }
}
