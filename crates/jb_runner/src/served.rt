//! A run that serves a pool of job slots for its workers and recipes.
ghost use Rattle.std.specs.Prelude.{◌≡◌, false, IfOk, OnErr};
ghost use Rattle.jb_closing.specs.Report.{ComesTo};

use crate::outside::{Outside, Parts};
use crate::serving::{is_one_word, served_flags};
use crate::slotted::{Came, Slotting, no_memory, run_in_memory, run_over_pool};
use bd_flusher::SiteIn;
use jb_recipe::{Conduct, Makeflags, News, Say};
use jb_slots::Banks;
use st_disk::Disk;
use std::alloc::{AllocError, Global};

/// Whether dmk serves a pool for its workers and recipes now, under a path that can be told to them.
fn serves<K: Banks>(
    alloc: Global,
    banks: &mut K,
    slotting: Slotting<'_>,
) -> Result<bool, AllocError>
    ensures none { IfOk result (λ made. made ≡ false → K.serves banks.old ≡ false → K.serves banks.new ≡ false) }
    ensures err { OnErr result (K.serves banks.old ≡ false → K.serves banks.new ≡ false) }
{
    if slotting.pool.is_empty() || !is_one_word(slotting.pool) {
        return Ok(false);
    }
    let further = slotting.workers.saturating_sub(1);
    banks.serve(
        alloc,
        slotting.pool,
        u8::try_from(further).unwrap_or(u8::MAX),
    )
}

/// A run over the pool that is served, which is let go at its end; the site where it can't be opened.
fn run_served<M: Outside, D: Disk + Drop + Send, K: Banks>(
    rt: &M::Runtime,
    alloc: Global,
    parts: &Parts<'_, M::Exec, M::Say, M::Place>,
    conduct: &Conduct,
    site: SiteIn<D>,
    slotting: Slotting<'_>,
    banks: &mut K,
) -> Result<Came<D>, SiteIn<D>>
where
    K::End: Drop + Send,
    ensures came { IfOk result (λ came. ComesTo D.honest D.moments conduct.now.form parts.now.graph.now came.0 came.1.site) }
    ensures let_go { K.serves banks.new ≡ false }
{
    let came = run_over_pool::<M, D, K>(
        rt,
        alloc,
        parts,
        conduct,
        site,
        slotting.all_workers(),
        banks,
        slotting.pool,
    );
    banks.close(slotting.pool);
    came
}

/// A run whose workers have a pool in memory, since none can be served. Its recipes are told of none.
fn run_unserved<M: Outside, D: Disk + Drop + Send>(
    rt: &M::Runtime,
    alloc: Global,
    parts: &Parts<'_, M::Exec, M::Say, M::Place>,
    conduct: &mut Conduct,
    site: SiteIn<D>,
    slotting: Slotting<'_>,
) -> Came<D>
    ensures { ComesTo D.honest D.moments conduct.old.form parts.now.graph.now result.0 result.1.site }
{
    parts.say.tell(News::NotServed);
    conduct.makeflags = Makeflags::Removed;
    run_in_memory::<M, D>(
        rt,
        alloc,
        parts,
        conduct,
        site,
        slotting.all_workers(),
        slotting.workers.saturating_sub(1),
    )
}

/// A run that serves a pool, or, where none can be served, has one in memory for its own workers.
pub(crate) fn run_as_server<M: Outside, D: Disk + Drop + Send, K: Banks>(
    rt: &M::Runtime,
    alloc: Global,
    parts: &Parts<'_, M::Exec, M::Say, M::Place>,
    conduct: &mut Conduct,
    site: SiteIn<D>,
    slotting: Slotting<'_>,
    banks: &mut K,
) -> Came<D>
where
    K::End: Drop + Send,
    ensures came { ComesTo D.honest D.moments conduct.old.form parts.now.graph.now result.0 result.1.site }
    ensures let_go { K.serves banks.old ≡ false → K.serves banks.new ≡ false }
{
    let Ok(flags) = served_flags(alloc, slotting.workers, slotting.pool) else {
        return no_memory(site);
    };
    conduct.makeflags = Makeflags::Set(flags);
    match serves(alloc, banks, slotting) {
        Ok(true) => match run_served::<M, D, K>(rt, alloc, parts, conduct, site, slotting, banks) {
            Ok(came) => came,
            Err(site) => run_unserved::<M, D>(rt, alloc, parts, conduct, site, slotting),
        },
        Ok(false) => run_unserved::<M, D>(rt, alloc, parts, conduct, site, slotting),
        Err(_) => no_memory(site),
    }
}
