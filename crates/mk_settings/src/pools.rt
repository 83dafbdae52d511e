//! Pools: how many recipes of some targets run at once.
ghost use Rattle.std.specs.Prelude.{◌≡◌, ◌-◌, [], Some, None, false, min, slice_get, IfSome, IfOk, OnOk};
ghost use Rattle.std.specs.List.{list_any};
ghost use Rattle.mk_settings.specs.Pools.{most_of, pool_by, pools_with, is_member, HasShare, waiting_in, waiting_for};

use mk_names::Names;
use mk_rule_lines::{LineWords, RuleLine, add_members, is_pool, most_said};
use std::alloc::{AllocError, Global};
use std::marker::Model;

/// How many that may wait are counted.
const MOST_WAITING: usize = 32;

/// Targets of which no more recipes run at once than are said.
pub struct Pool {
    pub(crate) most: u16,
    pub(crate) members: Names,
}

impl Drop for Pool {
    fn drop(self) {
        let Pool {
            most: _,
            members: _,
        } = self;
    }
}

/// The pools of a makefile, one for each line of `.POOL`. Contracts see the list.
pub struct Pools {
    pools: Vec<Pool>,
}

impl Model for Pools {
    ghost use Rattle.std.specs.Prelude.{List};
    ghost use Rattle.mk_settings.specs.declared.pools.Pool.{Pool};

    ghost Value = { List Pool };

    ghost view = { λ p. p.pools.items };
}

impl Drop for Pools {
    fn drop(self) {
        let Pools { pools: _ } = self;
    }
}

/// The pool of a target, and how many recipes of that one may run at once.
#[derive(Clone, Copy, Debug, PartialEq, Eq)]
pub struct Share {
    pub pool: usize,
    pub most: u16,
}

// The same, and one where none says it: such a line was refused.
fn most_of(words: &LineWords) -> u16
    ensures { result ≡ most_of words.now }
{
    most_said(words).unwrap_or(1)
}

fn pool_of(alloc: Global, line: &RuleLine) -> Result<Pool, AllocError>
    ensures { IfOk result (λ pool. pool ≡ pool_by line.now.prerequisites) }
{
    let mut members = Names::new(alloc);
    add_members(alloc, &mut members, line)?;
    Ok(Pool {
        most: most_of(&line.prerequisites),
        members,
    })
}

impl Pool {
    fn has(&self, target: &[u8]) -> bool
        ensures { result ≡ is_member target.now self.now }
    {
        self.members.number_of(target).is_some()
    }

    /// How many of its recipes may wait while others of them run.
    fn waiting(&self) -> usize
        ensures { result ≡ waiting_in self.now }
    {
        self.members.len().saturating_sub(usize::from(self.most))
    }
}

impl Pools {
    /// No pools.
    pub(crate) fn none(alloc: Global) -> Pools
        ensures { result ≡ [] }
    {
        Pools {
            pools: Vec::new(alloc),
        }
    }

    /// Takes in the pool of a line, where it says one.
    pub(crate) fn take_in(&mut self, alloc: Global, line: &RuleLine) -> Result<(), AllocError>
        ensures { OnOk result (self.new ≡ pools_with self.old line.now) }
    {
        if is_pool(line) {
            self.pools.push(pool_of(alloc, line)?)?;
        }
        Ok(())
    }

    /// The pool of a target; None where it is in none.
    pub fn share_of(&self, target: &[u8]) -> Option<Share>
        ensures share { IfSome result (HasShare self.now target.now) }
        ensures none { result ≡ None → list_any (is_member target.now) self.now ≡ false }
    {
        let mut place = 0;
        for pool in &self.pools {
            if pool.has(target) {
                return Some(Share {
                    pool: place,
                    most: pool.most,
                });
            }
            place += 1;
        }
        None
    }

    /// How many recipes of pools may wait while others run, as far as they are counted: 32 at most.
    pub fn waiting(&self) -> usize
        ensures { result ≡ waiting_for self.now }
    {
        let mut waiting: usize = 0;
        for pool in &self.pools {
            waiting = waiting.saturating_add(pool.waiting()).min(MOST_WAITING);
        }
        waiting
    }
}
