//! How a recipe is run beside others, as a makefile says of its target.
ghost use Rattle.std.specs.Prelude.{◌≡◌, false, None, IfSome};
ghost use Rattle.std.specs.List.{list_any};
ghost use Rattle.mk_settings.specs.Marks.{has_mark};
ghost use Rattle.mk_settings.specs.Pools.{HasShare, is_member};

use mk_settings::{Settings, Share};

/// How a recipe is run beside others.
#[derive(Clone, Copy)]
pub struct Turn {
    /// It has the terminal: no other recipe runs meanwhile.
    pub is_alone: bool,
    /// Its place in a pool.
    pub share: Option<Share>,
    /// How many recipes of the run may be run at once.
    pub at_once: usize,
}

/// How the recipe of a target is run, where so many may be run at once.
pub fn turn_of(settings: &Settings, at_once: usize, target: &[u8]) -> Turn
    ensures alone { result.is_alone ≡ has_mark settings.now.console target.now }
    ensures share { IfSome result.share (HasShare settings.now.pools target.now) }
    ensures none { result.share ≡ None → list_any (is_member target.now) settings.now.pools ≡ false }
    ensures at_once { result.at_once ≡ at_once }
{
    Turn {
        is_alone: settings.console.has(target),
        share: settings.pools.share_of(target),
        at_once,
    }
}
