//! What the special targets of a makefile set.
ghost use Rattle.std.specs.Prelude.{◌≡◌, ◌++◌, IfOk, OnOk};
ghost use Rattle.mk_settings.specs.Goals.{is_no_parallel, is_delete_on_error, is_depfile, settings_of};
ghost use Rattle.mk_settings.specs.Settled.{depfiles_with, nothing_set, settings_with};

use crate::marked::{Mark, Marked};
use crate::pools::Pools;
use byte_strings::ByteStrings;
use mk_reader::SpecialName;
use mk_rule_lines::RuleLine;
use std::alloc::{AllocError, Global};

pub struct Settings {
    /// `.NO_PARALLEL:`, or `.NOTPARALLEL:`.
    pub has_one_worker: bool,
    /// `.DELETE_ON_ERROR:`.
    pub deletes_on_error: bool,
    /// The patterns of `.DEPFILE:`, by which recipes write what they read: none where nothing is said of it. A list without
    /// patterns says that none do.
    pub depfiles: Option<ByteStrings>,
    /// The targets of `.IGNORE:`.
    pub ignored: Marked,
    /// Those of `.SILENT:`.
    pub silent: Marked,
    /// Those of `.PRECIOUS:`.
    pub precious: Marked,
    /// Those of `.CONSOLE:`.
    pub console: Marked,
    /// Those of `.POOL:`.
    pub pools: Pools,
}

impl Drop for Settings {
    fn drop(self) {
        let Settings {
            has_one_worker: _,
            deletes_on_error: _,
            depfiles: _,
            ignored: _,
            silent: _,
            precious: _,
            console: _,
            pools: _,
        } = self;
    }
}

fn is_no_parallel(line: &RuleLine) -> bool
    ensures { result ≡ is_no_parallel line.now.special }
{
    match line.special {
        Some(SpecialName::NoParallel | SpecialName::NotParallel) => true,
        _ => false,
    }
}

fn is_delete_on_error(line: &RuleLine) -> bool
    ensures { result ≡ is_delete_on_error line.now.special }
{
    match line.special {
        Some(SpecialName::DeleteOnError) => true,
        _ => false,
    }
}

fn is_depfile(line: &RuleLine) -> bool
    ensures { result ≡ is_depfile line.now.special }
{
    match line.special {
        Some(SpecialName::Depfile) => true,
        _ => false,
    }
}

fn add_patterns(patterns: &mut ByteStrings, line: &RuleLine) -> Result<(), AllocError>
    ensures { OnOk result (patterns.new ≡ patterns.old ++ line.now.prerequisites) }
{
    for word in line.prerequisites.iter() {
        patterns.push(word)?;
    }
    Ok(())
}

/// Takes in what a line says of where recipes write what they read.
fn add_depfiles(
    alloc: Global,
    depfiles: &mut Option<ByteStrings>,
    line: &RuleLine,
) -> Result<(), AllocError>
    ensures { OnOk result (depfiles.new ≡ depfiles_with depfiles.old line.now) }
{
    if !is_depfile(line) {
        return Ok(());
    }
    let mut patterns = match depfiles.take() {
        Some(patterns) => patterns,
        None => ByteStrings::empty(alloc),
    };
    add_patterns(&mut patterns, line)?;
    *depfiles = Some(patterns);
    Ok(())
}

impl Settings {
    /// Nothing set.
    fn none(alloc: Global) -> Settings
        ensures { result ≡ nothing_set }
    {
        Settings {
            has_one_worker: false,
            deletes_on_error: false,
            depfiles: None,
            ignored: Marked::none(alloc),
            silent: Marked::none(alloc),
            precious: Marked::none(alloc),
            console: Marked::none(alloc),
            pools: Pools::none(alloc),
        }
    }

    /// Takes in what a line sets.
    fn take_in(&mut self, alloc: Global, line: &RuleLine) -> Result<(), AllocError>
        ensures { OnOk result (self.new ≡ settings_with self.old line.now) }
    {
        self.has_one_worker = self.has_one_worker || is_no_parallel(line);
        self.deletes_on_error = self.deletes_on_error || is_delete_on_error(line);
        add_depfiles(alloc, &mut self.depfiles, line)?;
        self.ignored.take_in(alloc, Mark::Ignored, line)?;
        self.silent.take_in(alloc, Mark::Silent, line)?;
        self.precious.take_in(alloc, Mark::Precious, line)?;
        self.console.take_in(alloc, Mark::Console, line)?;
        self.pools.take_in(alloc, line)?;
        Ok(())
    }

    /// What the special rules among these lines set.
    pub fn of_lines(alloc: Global, lines: &[RuleLine]) -> Result<Settings, AllocError>
        ensures { IfOk result (λ settings. settings ≡ settings_of lines.now) }
    {
        let mut settings = Settings::none(alloc);
        for line in lines {
            // Most lines are rules, which set nothing.
            if line.is_rule() {
                continue;
            }
            settings.take_in(alloc, line)?;
        }
        Ok(settings)
    }
}
