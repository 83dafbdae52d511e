//! The shell that runs lines in a dry run.
use bd_lists::Variable;
use dmk_files::FileTexts;
use dmk_host::{HostFiles, HostTrees};
use dmk_messages::Fault;
use dmk_reading::{Makefiles, Options, first_macros, items_of};
use mk_eval::Includes;
use mk_macros::{Dynamic, MacroFault, Macros};
use mk_plan::RecipeFault;
use mk_profile::Profile;
use mk_rule_lines::{RuleFault, TextFault, rule_lines};
use mk_rules::Tree;
use std::alloc::{AllocError, Global};

/// What the shell is found by: kept, since a look takes the options.
#[derive(Drop)]
pub struct ShellSource {
    makefiles: Makefiles,
    profile: Profile,
    definitions: Vec<Variable>,
}

fn copied(alloc: Global, variables: &[Variable]) -> Result<Vec<Variable>, AllocError> {
    let mut copies = Vec::with_capacity(alloc, variables.len())?;
    for variable in variables {
        copies.push(Variable {
            name: variable.name.copy(alloc)?,
            value: variable.value.copy(alloc)?,
        })?;
    }
    Ok(copies)
}

/// What SHELL comes to with the last definitions, as in a run.
fn shell_of(alloc: Global, macros: &Macros) -> Result<Vec<u8>, Fault> {
    match macros.expand(alloc, b"$(SHELL)", &Dynamic::RuleLine) {
        Ok(name) => Ok(name),
        Err(MacroFault::OutOfMemory) => Err(Fault::OutOfMemory),
        Err(cause) => {
            let fault = TextFault { place: None, cause };
            Err(Fault::Recipe(RecipeFault::Macro(fault)))
        }
    }
}

impl ShellSource {
    pub fn of(alloc: Global, options: &Options) -> Result<ShellSource, AllocError> {
        Ok(ShellSource {
            makefiles: Makefiles {
                named: options.makefiles.named.copy(alloc)?,
                folders: options.makefiles.folders.copy(alloc)?,
                without_rules: options.makefiles.without_rules,
                old: options.makefiles.old.copy(alloc)?,
            },
            profile: options.profile,
            definitions: copied(alloc, &options.definitions)?,
        })
    }

    /// The shell that the makefiles name, whose texts are known. In the strict profile they name none.
    pub fn shell(
        &self,
        host: HostRuntime,
        environment: &[Variable],
        texts: &mut FileTexts<HostFiles<'_>>,
    ) -> Result<Vec<u8>, Fault> {
        let alloc = host.alloc();
        if !self.profile.is_wide() {
            return Ok(Vec::new(alloc));
        }
        let trees = HostTrees::plain(host);
        self.shell_over(alloc, environment, trees.tree(), texts)
    }

    /// The same over files of any types, which are made concrete once, at the call.
    fn shell_over<T: Tree + Drop, I: Includes>(
        &self,
        alloc: Global,
        environment: &[Variable],
        tree: T,
        texts: &mut I,
    ) -> Result<Vec<u8>, Fault> {
        let mut tree = tree;
        let items = items_of(
            alloc,
            self.profile,
            &self.definitions,
            environment,
            &self.makefiles,
            &mut tree,
            texts,
        );
        drop(tree);
        let items = items?;
        let mut macros = first_macros(alloc, self.profile, &self.definitions, environment)?;
        let read = rule_lines(alloc, items, &mut macros);
        // Another fault of a rule line was told by the look.
        let wants_memory = matches!(read, Err(RuleFault::OutOfMemory));
        drop(read);
        if wants_memory {
            return Err(Fault::OutOfMemory);
        }
        shell_of(alloc, &macros)
    }
}
