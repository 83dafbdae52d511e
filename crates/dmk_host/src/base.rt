//! What -p prints, before all else.
use crate::host_files::{HostFiles, HostTrees};
use bd_lists::Variable;
use byte_strings::ByteStrings;
use dmk_files::FileTexts;
use dmk_reading::{Makefiles, Options, base_of};
use mk_eval::Includes;
use mk_rules::Tree;
use std::alloc::{AllocError, Global};

/// What -p prints; nothing where it isn't asked for, and where a makefile has a fault, which is told once it is made.
pub fn base_asked(
    host: HostRuntime,
    options: &Options,
    environment: &[Variable],
    makefiles: &mut FileTexts<HostFiles<'_>>,
) -> Result<Vec<u8>, AllocError> {
    let alloc = host.alloc();
    if !options.prints_base {
        return Ok(Vec::new(alloc));
    }
    let trees = HostTrees::of(host, options)?;
    base_over(alloc, options, environment, trees.tree(), makefiles)
}

/// The makefiles with all their rules, also those that are ignored.
fn with_all_rules(alloc: Global, makefiles: &Makefiles) -> Result<Makefiles, AllocError> {
    Ok(Makefiles {
        named: makefiles.named.copy(alloc)?,
        folders: makefiles.folders.copy(alloc)?,
        without_rules: makefiles.without_rules,
        old: ByteStrings::empty(alloc),
    })
}

/// The same over files of any types, which are made concrete once, at the call.
fn base_over<T: Tree + Drop, I: Includes>(
    alloc: Global,
    options: &Options,
    environment: &[Variable],
    tree: T,
    makefiles: &mut I,
) -> Result<Vec<u8>, AllocError> {
    let mut tree = tree;
    let all = match with_all_rules(alloc, &options.makefiles) {
        Ok(all) => all,
        Err(error) => {
            drop(tree);
            return Err(error);
        }
    };
    let found = base_of(
        alloc,
        options.profile,
        options.definitions.as_slice(),
        environment,
        &all,
        &mut tree,
        makefiles,
    );
    drop(tree);
    match found {
        Err(fault) if fault.is_of_memory() => Err(AllocError),
        Err(_) => Ok(Vec::new(alloc)),
        Ok(text) => Ok(text),
    }
}
