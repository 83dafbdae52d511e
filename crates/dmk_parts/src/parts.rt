//! Goals cut into parts, what is asked for of one part alone, and what two of them come to.
ghost use Rattle.std.specs.Prelude.{◌≡◌, ◌≤◌, true, false, IfOk};
ghost use Rattle.dmk_parts.specs.Parts.{AreParts, GoesOn, EndsRun, Joined};

use crate::tried::Tried;
use bd_lists::Variable;
use byte_strings::ByteStrings;
use dmk_reading::{Makefiles, Options};
use dmk_store::Stop;
use std::alloc::{AllocError, Global};

/// The goals in parts: one ends behind each goal whose mark is set, and the last behind the last goal.
pub fn in_parts(
    alloc: Global,
    goals: &ByteStrings,
    ends: &[bool],
) -> Result<Vec<ByteStrings>, AllocError>
    ensures { IfOk result (λ parts. AreParts goals.now parts.items) }
{
    let mut parts = Vec::new(alloc);
    let mut part = ByteStrings::empty(alloc);
    let mut marks = ends.iter();
    for goal in goals {
        part.push(goal)?;
        if let Some(true) = marks.next() {
            parts.push(part)?;
            part = ByteStrings::empty(alloc);
        }
    }
    if part.is_empty() && !parts.is_empty() {
        return Ok(parts);
    }
    parts.push(part)?;
    Ok(parts)
}

/// The same definitions once more.
fn copied(alloc: Global, definitions: &[Variable]) -> Result<Vec<Variable>, AllocError>
    ensures { IfOk result (λ copies. copies.items ≡ definitions.now) }
{
    let mut copies = Vec::new(alloc);
    for definition in definitions {
        let name = definition.name.copy(alloc)?;
        let value = definition.value.copy(alloc)?;
        copies.push(Variable { name, value })?;
    }
    Ok(copies)
}

/// What the options ask for, of these goals alone.
pub fn part_of(
    alloc: Global,
    options: &Options,
    targets: &ByteStrings,
) -> Result<Options, AllocError>
    ensures asks { IfOk result (λ part. part.asks ≡ options.now.asks) }
    ensures dry { IfOk result (λ part. part.is_dry ≡ options.now.is_dry) }
    ensures makefiles { IfOk result (λ part. part.makefiles ≡ options.now.makefiles) }
    ensures profile { IfOk result (λ part. part.profile ≡ options.now.profile) }
    ensures definitions { IfOk result (λ part. part.definitions.items ≡ options.now.definitions.items) }
    ensures all { IfOk result (λ part. part.makes_all ≡ options.now.makes_all) }
    ensures goes_on { IfOk result (λ part. part.goes_on ≡ options.now.goes_on) }
    ensures targets { IfOk result (λ part. part.targets ≡ targets.now) }
{
    let named = options.makefiles.named.copy(alloc)?;
    let folders = options.makefiles.folders.copy(alloc)?;
    let old = options.makefiles.old.copy(alloc)?;
    let state = String::from_str(alloc, options.state.as_str())?;
    let definitions = copied(alloc, &options.definitions)?;
    let targets = targets.copy(alloc)?;
    let touched = options.touched.copy(alloc)?;
    Ok(Options {
        makefiles: Makefiles {
            named,
            folders,
            without_rules: options.makefiles.without_rules,
            old,
        },
        profile: options.profile,
        state,
        workers: options.workers,
        goes_on: options.goes_on,
        is_dry: options.is_dry,
        is_silent: options.is_silent,
        ignores_statuses: options.ignores_statuses,
        asks: options.asks,
        makes_all: options.makes_all,
        telling: options.telling,
        prints_base: options.prints_base,
        definitions,
        targets,
        touched,
    })
}

/// What the options ask for, of these goals alone, and a copy of the names that parts before tried.
pub fn part_behind(
    alloc: Global,
    options: &Options,
    targets: &ByteStrings,
    tried: &Tried,
) -> Result<(Options, Tried), AllocError>
    ensures asks { IfOk result (λ made. made.0.asks ≡ options.now.asks) }
    ensures dry { IfOk result (λ made. made.0.is_dry ≡ options.now.is_dry) }
    ensures makefiles { IfOk result (λ made. made.0.makefiles ≡ options.now.makefiles) }
    ensures profile { IfOk result (λ made. made.0.profile ≡ options.now.profile) }
    ensures definitions { IfOk result (λ made. made.0.definitions.items ≡ options.now.definitions.items) }
    ensures all { IfOk result (λ made. made.0.makes_all ≡ options.now.makes_all) }
    ensures goes_on { IfOk result (λ made. made.0.goes_on ≡ options.now.goes_on) }
    ensures targets { IfOk result (λ made. made.0.targets ≡ targets.now) }
    ensures tried { IfOk result (λ made. made.1 ≡ tried.now) }
{
    let tried = tried.copy(alloc)?;
    let part = part_of(alloc, options, targets)?;
    Ok((part, tried))
}

/// Whether more is made behind what came to this.
pub fn goes_on(options: &Options, found: &Result<u8, Stop>) -> bool
    ensures yes { result ≡ true → IfOk found.now (GoesOn options.now.goes_on) }
    ensures no { result ≡ false → IfOk found.now (EndsRun options.now.goes_on) }
{
    match found {
        Ok(status) => *status == 0 || options.goes_on,
        Err(_) => false,
    }
}

/// What two parts come to, the second of which was made behind the first.
pub fn joined(before: Result<u8, Stop>, behind: Result<u8, Stop>) -> Result<u8, Stop>
    requires before { IfOk before (λ s. s ≤ 2) }
    requires behind { IfOk behind (λ s. s ≤ 2) }
    ensures status { IfOk result (λ s. s ≤ 2) }
    ensures both { IfOk result (Joined before behind) }
{
    match (before, behind) {
        (Ok(before), Ok(behind)) => Ok(behind.max(before)),
        (Ok(_), Err(stop)) => Err(stop),
        (Err(stop), behind) => {
            drop(behind);
            Err(stop)
        }
    }
}
