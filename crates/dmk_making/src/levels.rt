//! What the states of other levels know, taken over before a run.

use bd_lists::Variable;
use dmk_asking::HostLevels;
use dmk_levels::kept_items;
use dmk_printing::Printer;
use dmk_reading::Options;
use dmk_store::{Machine, Stop, hold_state, status_of};
use dmk_taking::{Taking, take_known};
use mk_levels::{Level, told_known};
use st_disk::Disk;
use st_records::HashKey;
use std::alloc::Global;

/// Tells which targets were taken over, where that is wanted.
fn tell<M: Machine>(
    alloc: Global,
    printer: &Printer<'_, M::Runtime, M::Out, M::Err>,
    options: &Options,
    levels: &[Level],
    found: Result<Taking, Stop>,
) -> Result<(), u8> {
    match found {
        Ok(Taking::Unread) => Ok(()),
        Ok(Taking::Taken(records)) => {
            if let Ok(text) = told_known(alloc, options.telling, levels, &records) {
                printer.text(&text);
            }
            Ok(())
        }
        Err(stop) => Err(status_of(printer, options.state.as_str(), Err(stop))),
    }
}

/// Takes over what other levels know of targets, as those are read once no other run has the state. Where a fault ends the run, it is told,
/// and answers the status.
pub(crate) fn take_levels<M: Machine, D: Disk + Drop>(
    alloc: Global,
    key: HashKey,
    environment: &[Variable],
    printer: &Printer<'_, M::Runtime, M::Out, M::Err>,
    guard: &mut M::Guard,
    options: &Options,
    levels: &HostLevels,
    tree: &mut M::Tree,
    makefiles: &mut M::Includes,
    disk: D,
) -> (Result<(), u8>, D) {
    let Some(items) = kept_items(alloc, environment, options, tree, makefiles) else {
        return (Ok(()), disk);
    };
    let state = options.state.as_str();
    if let Err(stop) = hold_state(guard, printer, state) {
        drop(items);
        return (Err(status_of(printer, state, Err(stop))), disk);
    }
    let Ok(levels) = levels.read_now() else {
        drop(items);
        return (Ok(()), disk);
    };
    let (found, disk) = take_known(
        alloc,
        key,
        environment,
        options,
        &levels,
        tree,
        makefiles,
        items,
        disk,
    );
    (tell::<M>(alloc, printer, options, &levels, found), disk)
}
