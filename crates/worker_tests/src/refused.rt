//! A recipe to which memory is refused. Under `rt try --test --fail-alloc N` the Nth allocation of the test is refused.
//! Where that is the recipe's own, nothing of it was run, the clearance comes back, and with it the recipe is run the next
//! time. Where it is one of the preparations, the test ends with an error.
ghost use Rattle.std.specs.Prelude.{◌≡◌, IfOk, IfErr};
ghost use Rattle.st_records.specs.declared.record.Record.TheVariants as records;

use crate::fake::{Fake, Notes, TokenEnd};
use crate::way::ALONE;
use bd_flusher::{Receipt, SiteIn};
use bd_links::Node;
use bd_lists::{Advanced, BoardIn, Clearance, Recipe};
use byte_strings::ByteString;
use jb_recipe::{Ran, Spoken, run_recipe};
use jb_slots::{Slot, Slots};
use mk_profile::Profile;
use mk_recipe::split_line;
use run_doubles::{Asked, begun, board, flush, look, new_store, site_of, submitted, take_in};
use st_disk::Disk;
use st_recovery::StoreIn;
use std::alloc::Global;
use std::process::Abort;
use std::sync::Wait;
use std::test::Fail;
use std::time::Clock;

const ONE: Asked = Asked {
    makefile: "x:\n\techo x\n",
    files: &[],
};

const TARGET: &[u8] = b"x";

fn advanced(
    board: &mut BoardIn<Receipt>,
    node: Node,
    receipt: Receipt,
) -> Result<Clearance<Receipt>, Fail>
    ensures { IfOk result (λ c. c.told ≡ receipt) }
{
    match board.advance(node, receipt) {
        Ok(Advanced::Cleared(clearance)) => Ok(clearance),
        Ok(Advanced::Settled(_receipt)) => Err("it is settled".into()),
        Err(_receipt) => Err("nothing was cleared".into()),
    }
}

fn written<D: Disk + Drop>(
    alloc: Global,
    board: &mut BoardIn<Receipt>,
    site: &mut SiteIn<D>,
) -> Result<(), Fail> {
    take_in(alloc, site, board)?;
    flush(alloc, site)?;
    Ok(())
}

fn cleared_by<D: Disk + Drop>(
    alloc: Global,
    target: &[u8],
    board: &mut BoardIn<Receipt>,
    site: &mut SiteIn<D>,
) -> Result<Clearance<Receipt>, Fail>
    ensures { IfOk result (λ c. c.told.noted ≡ records.Begun target.now) }
{
    let (node, ticket) = submitted(alloc, board, target).ok_or("nothing was submitted")?;
    written(alloc, board, site)?;
    let note = begun(alloc, target).ok_or("no record")?;
    let receipt = look(site, ticket, note)?;
    advanced(board, node, receipt)
}

/// The clearance of a target whose 'begun' was written.
fn cleared(alloc: Global, target: &[u8]) -> Result<Clearance<Receipt>, Fail>
    ensures { IfOk result (λ c. c.told.noted ≡ records.Begun target.now) }
{
    cleared_over(alloc, target, new_store(alloc)?)
}

fn cleared_over<D: Disk + Drop>(
    alloc: Global,
    target: &[u8],
    store: StoreIn<D>,
) -> Result<Clearance<Receipt>, Fail>
    ensures { IfOk result (λ c. c.told.noted ≡ records.Begun target.now) }
{
    let mut board = board(alloc, &ONE, store.state())?;
    let mut site = site_of(alloc, store)?;
    cleared_by(alloc, target, &mut board, &mut site)
}

fn recipe(alloc: Global, target: &[u8]) -> Result<Recipe, Fail>
    ensures { IfOk result (λ r. r.target ≡ target.now) }
{
    let mut lines = Vec::new(alloc);
    lines.push(split_line(alloc, Profile::Strict, b"echo x", b"echo x")?)?;
    Ok(Recipe {
        target: ByteString::from_slice(alloc, target)?,
        lines,
        env: Vec::new(alloc),
        ignore: false,
    })
}

/// Runs a recipe. The clearance comes back where memory was refused.
fn tried<R: Wait + Clock + Copy>(
    alloc: Global,
    clearance: Clearance<Receipt>,
    recipe: Recipe,
    slot: &Slot<'_>,
    fake: &Fake<R>,
) -> Result<Ran, Clearance<Receipt>>
    requires { clearance.told.noted ≡ records.Begun recipe.target }
    ensures { IfErr result (λ c. c ≡ clearance) }
{
    let spoken = Spoken {
        exec: fake,
        say: fake,
        target: b"t",
        tells_failed: true,
        goes: false,
    };
    run_recipe(alloc, clearance, recipe, None, fake, slot, &spoken)
}

fn end(ran: Ran) {
    let Ran {
        ended: _,
        spent,
        failed: _,
    } = ran;
    let _receipt = spent.give_up();
}

fn refusals_of_one<R: Wait + Clock + Copy>(
    alloc: Global,
    clearance: Clearance<Receipt>,
    recipe: Recipe,
    slot: &Slot<'_>,
    fake: &Fake<R>,
) -> u8
    requires { clearance.told.noted ≡ records.Begun recipe.target }
{
    match tried(alloc, clearance, recipe, slot, fake) {
        Ok(ran) => {
            end(ran);
            0
        }
        Err(clearance) => {
            let _receipt = clearance.give_up();
            1
        }
    }
}

/// How often memory was refused before one of two recipes of the same target was run.
fn refusals<R: Wait + Clock + Copy>(
    alloc: Global,
    clearance: Clearance<Receipt>,
    first: Recipe,
    second: Recipe,
    slot: &Slot<'_>,
    fake: &Fake<R>,
) -> u8
    requires first { clearance.told.noted ≡ records.Begun first.target }
    requires second { clearance.told.noted ≡ records.Begun second.target }
{
    match tried(alloc, clearance, first, slot, fake) {
        Ok(ran) => {
            end(ran);
            0
        }
        Err(clearance) => refusals_of_one(alloc, clearance, second, slot, fake).saturating_add(1),
    }
}

/// The same, with a slot of its own.
fn refusals_in_a_slot<R: Wait + Clock + Copy>(
    rt: &R,
    alloc: Global,
    clearance: Clearance<Receipt>,
    first: Recipe,
    second: Recipe,
    end: &mut TokenEnd<'_, R>,
    fake: &Fake<R>,
) -> u8
    requires first { clearance.told.noted ≡ records.Begun first.target }
    requires second { clearance.told.noted ≡ records.Begun second.target }
{
    let slots = Slots::new();
    let slot = slots.acquire(rt, end);
    let refusals = refusals(alloc, clearance, first, second, &slot, fake);
    let _ = slots.release(rt, slot, end);
    refusals
}

fn refusals_of<R: Wait + Clock + Copy>(
    rt: &R,
    alloc: Global,
    target: &[u8],
    fake: &Fake<R>,
) -> Result<u8, Fail> {
    let mut end = fake.end(alloc, 1)?;
    let first = recipe(alloc, target)?;
    let second = recipe(alloc, target)?;
    let clearance = cleared(alloc, target)?;
    Ok(refusals_in_a_slot(rt, alloc, clearance, first, second, &mut end, fake))
}

/// How often a recipe's memory was refused before it was run, and what came of the calls.
fn run_at_last<R: Wait + Clock + Copy>(rt: &R, alloc: Global) -> Result<(u8, Notes), Fail> {
    let fake = Fake::new(*rt, alloc, &ALONE)?;
    let refusals = refusals_of(rt, alloc, TARGET, &fake)?;
    Ok((refusals, fake.into_notes()))
}

#[test]
fn a_recipe_that_wanted_memory_is_run_the_next_time(rt: HostRuntime) -> Result<(), Fail> {
    let (refusals, notes) = run_at_last(&rt, rt.alloc())?;
    assert!(rt; refusals <= 1);
    assert_eq!(rt; notes.ran.as_slice(), b"echo x\n".as_slice());
    Ok(())
}
