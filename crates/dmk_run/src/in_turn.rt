//! The parts of a run, made one behind the other: each over files that are looked at anew.
ghost use Rattle.std.specs.Prelude.{◌≡◌, ◌≢◌, ◌≤◌, ℕ, List, Option, Ok, codes, false, IfOk, IfErr, IsErrAnd, IsOk};
ghost use Rattle.mk_profile.specs.declared.profile.Profile.TheVariants.{Strict};
ghost use Rattle.st_disk.specs.Moments.{now};
ghost use Rattle.dmk_reading.specs.Keeping.{value_in};
ghost use Rattle.dmk_reading.specs.Asked.{AsksToRun};
ghost use Rattle.dmk_parts.specs.Behind.{none_tried};
ghost use Rattle.dmk_run.specs.InTurn.{MakesPart, MakesWithLost, MadeInTurn, MadeBehind, IsMadeInTurn, IsParted, LeavesDisk};
ghost use Rattle.dmk_parts.specs.declared.tried.Tried.{Tried as TriedNames};
ghost use Rattle.mk_nodes.specs.declared.file_look.FileLook.{FileLook};

use crate::driver::{Means, build_at_once};
use crate::standing::lost_targets;
use bd_flusher::Receipt;
use bd_lists::Exec;
use byte_strings::ByteStrings;
use dmk_parts::{Standing, Tried, goes_on, in_parts, joined, part_behind, part_of};
use dmk_printing::Printer;
use dmk_reading::Options;
use dmk_store::{Looks, Machine, Stop, status_of};
use st_disk::Disk;
use std::alloc::Global;

/// Makes a part of what the options ask for, over files that are looked at anew, behind parts that tried these names.
/// Its own are added.
fn made_part<M: Machine, E: Exec<Receipt> + Sync, D: Disk + Drop + Send>(
    rt: &M::Runtime,
    alloc: Global,
    means: &Means<'_, E, Printer<'_, M::Runtime, M::Out, M::Err>, M::Place>,
    guard: &mut M::Guard,
    options: &Options,
    targets: &ByteStrings,
    tried: &mut Tried,
    looks: &M::Looks,
    includes: &mut M::Includes,
    banks: &mut M::Banks,
    disk: D,
) -> (Result<u8, Stop>, D, Vec<Standing>)
    requires { AsksToRun options.now (value_in means.now.environment.now (codes "MAKEFLAGS")) }
    ensures status { IfOk result.0 (λ s. s ≤ 2) }
    ensures part { IfOk result.0 (MakesPart (λ source world. M.Includes.allows source world) (λ tree looks. M.Tree.allows tree looks) options.now
        means.now.environment.now D.honest (λ d. D.seen d) (λ d. now (D.moments d)) targets.now
        (disk, tried.old) (result.1, tried.new)) }
    ensures untouched { LeavesDisk (λ source world. M.Includes.allows source world) (λ tree looks. M.Tree.allows tree looks) options.now
        means.now.environment.now disk result.1 }
    ensures let_go { M.Banks.serves banks.old ≡ false → M.Banks.serves banks.new ≡ false }
{
    let (part, behind) = match part_behind(alloc, options, targets, tried) {
        Ok(part) => part,
        Err(error) => return (Err(Stop::from(error)), disk, Vec::new(alloc)),
    };
    let mut files = looks.anew();
    let (found, disk, left) = build_at_once::<M, E, D>(
        rt,
        alloc,
        means,
        guard,
        part,
        Some(behind),
        &mut files,
        includes,
        banks,
        disk,
    );
    drop(files);
    let found = tried.add_behind(alloc, &mut looks.anew(), &left, found);
    (found, disk, left.into_standing())
}

/// Notes which targets are lost since they were judged up to date. In the wide profile these are made. Those that there is no memory for
/// aren't looked at again.
fn lost_made<M: Machine, E: Exec<Receipt> + Sync, D: Disk + Drop + Send>(
    rt: &M::Runtime,
    alloc: Global,
    means: &Means<'_, E, Printer<'_, M::Runtime, M::Out, M::Err>, M::Place>,
    guard: &mut M::Guard,
    options: &Options,
    tried: &mut Tried,
    looks: &M::Looks,
    includes: &mut M::Includes,
    banks: &mut M::Banks,
    ran: (Result<u8, Stop>, D, Vec<Standing>),
) -> (Result<u8, Stop>, D)
    requires asks { AsksToRun options.now (value_in means.now.environment.now (codes "MAKEFLAGS")) }
    requires status { IfOk ran.0 (λ s. s ≤ 2) }
    ensures status { IfOk result.0 (λ s. s ≤ 2) }
    ensures behind { IfOk result.0 (λ s. (before : ℕ) × (ran.0 ≡ Ok before) × MadeBehind (MakesPart (λ source world. M.Includes.allows source world) (λ tree looks. M.Tree.allows tree looks) options.now
        means.now.environment.now D.honest (λ d. D.seen d) (λ d. now (D.moments d)))
        options.now.goes_on before (ran.1, tried.old) (result.1, tried.new) s) }
    ensures strict { options.now.profile ≡ Strict → (result.1 ≡ ran.1) × (tried.new ≡ tried.old) × IfOk result.0 (λ s. ran.0 ≡ Ok s) }
    ensures untouched { LeavesDisk (λ source world. M.Includes.allows source world) (λ tree looks. M.Tree.allows tree looks) options.now
        means.now.environment.now ran.1 result.1 }
    ensures let_go { M.Banks.serves banks.old ≡ false → M.Banks.serves banks.new ≡ false }
{
    let (found, disk, standing) = ran;
    if standing.is_empty() {
        return (found, disk);
    }
    let mut tree = looks.anew();
    let Ok(lost) = lost_targets(alloc, means.say, means.place, &mut tree, &standing) else {
        return (found, disk);
    };
    if lost.is_empty() || !options.profile.is_wide() || !goes_on(options, &found) {
        return (found, disk);
    }
    let (again, disk, more) = made_part::<M, E, D>(
        rt, alloc, means, guard, options, &lost, tried, looks, includes, banks, disk,
    );
    drop(more);
    (joined(found, again), disk)
}

/// Makes the parts, one behind the other, and behind each what is lost since. One that fails ends the run, unless it is to go on.
fn made_in_turn<M: Machine, E: Exec<Receipt> + Sync, D: Disk + Drop + Send>(
    rt: &M::Runtime,
    alloc: Global,
    means: &Means<'_, E, Printer<'_, M::Runtime, M::Out, M::Err>, M::Place>,
    guard: &mut M::Guard,
    options: &Options,
    parts: &[ByteStrings],
    looks: &M::Looks,
    includes: &mut M::Includes,
    banks: &mut M::Banks,
    disk: D,
) -> (Result<u8, Stop>, D)
    requires { AsksToRun options.now (value_in means.now.environment.now (codes "MAKEFLAGS")) }
    ensures status { IfOk result.0 (λ s. s ≤ 2) }
    ensures in_turn { IfOk result.0 (λ s. (tried : TriedNames) × MadeInTurn (MakesWithLost (MakesPart (λ source world. M.Includes.allows source world) (λ tree looks. M.Tree.allows tree looks) options.now
        means.now.environment.now D.honest (λ d. D.seen d) (λ d. now (D.moments d))) options.now.goes_on)
        options.now.goes_on parts.now (disk, none_tried) (result.1, tried) s) }
    ensures untouched { LeavesDisk (λ source world. M.Includes.allows source world) (λ tree looks. M.Tree.allows tree looks) options.now
        means.now.environment.now disk result.1 }
    ensures let_go { M.Banks.serves banks.old ≡ false → M.Banks.serves banks.new ≡ false }
{
    let mut disk = disk;
    let mut tried = Tried::nothing(alloc);
    let mut found = Ok(0);
    for targets in parts {
        if !goes_on(options, &found) {
            break;
        }
        let ran = made_part::<M, E, D>(
            rt, alloc, means, guard, options, targets, &mut tried, looks, includes, banks, disk,
        );
        let (behind, left) = lost_made::<M, E, D>(
            rt, alloc, means, guard, options, &mut tried, looks, includes, banks, ran,
        );
        disk = left;
        found = joined(found, behind);
    }
    (found, disk)
}

/// What a run came to, or behind which goals a part ends. In the strict profile nothing is made in parts.
fn made_or_ends(options: &Options, found: Result<u8, Stop>) -> Result<Result<u8, Stop>, Vec<bool>>
    ensures found { IfOk result (λ f. f ≡ found) }
    ensures strict { options.now.profile ≡ Strict → IsOk result }
    ensures parted { IfErr result (λ ends. IsErrAnd found IsParted) }
{
    if !options.profile.is_wide() {
        return Ok(found);
    }
    match found {
        Err(Stop::Parted(ends)) => Err(ends),
        found => Ok(found),
    }
}

/// Makes all that the options ask for: at once, or in parts.
fn made_whole<M: Machine, E: Exec<Receipt> + Sync, D: Disk + Drop + Send>(
    rt: &M::Runtime,
    alloc: Global,
    means: &Means<'_, E, Printer<'_, M::Runtime, M::Out, M::Err>, M::Place>,
    guard: &mut M::Guard,
    options: &Options,
    looks: &M::Looks,
    includes: &mut M::Includes,
    banks: &mut M::Banks,
    disk: D,
) -> (Result<u8, Stop>, D)
    requires { AsksToRun options.now (value_in means.now.environment.now (codes "MAKEFLAGS")) }
    ensures status { IfOk result.0 (λ s. s ≤ 2) }
    ensures in_turn { IfOk result.0 (λ s. (tried : TriedNames) × IsMadeInTurn (MakesPart (λ source world. M.Includes.allows source world) (λ tree looks. M.Tree.allows tree looks) options.now
        means.now.environment.now D.honest (λ d. D.seen d) (λ d. now (D.moments d)))
        options.now.goes_on options.now.targets (disk, none_tried) (result.1, tried) s) }
    ensures strict { options.now.profile ≡ Strict → IfOk result.0 (λ s. (tried : TriedNames) × MakesPart (λ source world. M.Includes.allows source world) (λ tree looks. M.Tree.allows tree looks) options.now
        means.now.environment.now D.honest (λ d. D.seen d) (λ d. now (D.moments d)) options.now.targets
        (disk, none_tried) (result.1, tried) s) }
    ensures untouched { LeavesDisk (λ source world. M.Includes.allows source world) (λ tree looks. M.Tree.allows tree looks) options.now
        means.now.environment.now disk result.1 }
    ensures let_go { M.Banks.serves banks.old ≡ false → M.Banks.serves banks.new ≡ false }
{
    let whole = match part_of(alloc, options, &options.targets) {
        Ok(whole) => whole,
        Err(error) => return (Err(Stop::from(error)), disk),
    };
    let mut tree = looks.anew();
    let (found, disk, left) = build_at_once::<M, E, D>(
        rt, alloc, means, guard, whole, None, &mut tree, includes, banks, disk,
    );
    drop(tree);
    let ends = match made_or_ends(options, found) {
        Ok(found) => {
            let mut tried = Tried::nothing(alloc);
            let found = tried.add_behind(alloc, &mut looks.anew(), &left, found);
            let ran = (found, disk, left.into_standing());
            return lost_made::<M, E, D>(
                rt, alloc, means, guard, options, &mut tried, looks, includes, banks, ran,
            );
        }
        Err(ends) => ends,
    };
    drop(left);
    match in_parts(alloc, &options.targets, &ends) {
        Ok(parts) => made_in_turn::<M, E, D>(
            rt, alloc, means, guard, options, &parts, looks, includes, banks, disk,
        ),
        Err(error) => (Err(Stop::from(error)), disk),
    }
}

/// Makes the targets that the words name, or the first of the makefile, and what they need. The status, and the state's disk.
///
/// Goals of the wide profile may be made in parts, one behind the other: of each what `build_at_once` says holds, over the disk that
/// the one before it left, and behind what those before it tried: neither what they built without a file is made again, nor what failed in them, or
/// stands on that. So it is of targets that are lost since they were judged up to date, which are made behind it.
pub fn build_targets<M: Machine, E: Exec<Receipt> + Sync, D: Disk + Drop + Send>(
    rt: &M::Runtime,
    alloc: Global,
    means: &Means<'_, E, Printer<'_, M::Runtime, M::Out, M::Err>, M::Place>,
    guard: &mut M::Guard,
    options: Options,
    looks: &M::Looks,
    includes: &mut M::Includes,
    banks: &mut M::Banks,
    disk: D,
) -> (u8, D)
    // Recipes are run only where neither the words nor MAKEFLAGS ask for a listing.
    requires { AsksToRun options (value_in means.now.environment.now (codes "MAKEFLAGS")) }
    ensures status { result.0 ≤ 2 }
    // At another status than 2 the goals were made over the disk, in parts one behind the other, and behind a part maybe some targets that
    // were lost. Of each of these `build_at_once` tells what is so.
    ensures in_turn { result.0 ≢ 2 → (tried : TriedNames) × IsMadeInTurn (MakesPart (λ source world. M.Includes.allows source world) (λ tree looks. M.Tree.allows tree looks) options
        means.now.environment.now D.honest (λ d. D.seen d) (λ d. now (D.moments d)))
        options.goes_on options.targets (disk, none_tried) (result.1, tried) result.0 }
    // In the strict profile there is one part.
    ensures strict { result.0 ≢ 2 → options.profile ≡ Strict → (tried : TriedNames) × MakesPart (λ source world. M.Includes.allows source world) (λ tree looks. M.Tree.allows tree looks) options
        means.now.environment.now D.honest (λ d. D.seen d) (λ d. now (D.moments d)) options.targets (disk, none_tried) (result.1, tried) result.0 }
    // Unless a makefile that was read keeps state, the disk is handed back as it came.
    ensures untouched { LeavesDisk (λ source world. M.Includes.allows source world) (λ tree looks. M.Tree.allows tree looks) options
        means.now.environment.now disk result.1 }
    // A pool that is served for the run is let go at its end.
    ensures let_go { M.Banks.serves banks.old ≡ false → M.Banks.serves banks.new ≡ false }
{
    let (found, disk) = made_whole::<M, E, D>(
        rt, alloc, means, guard, &options, looks, includes, banks, disk,
    );
    let status = status_of(means.say, options.state.as_str(), found);
    (status, disk)
}
