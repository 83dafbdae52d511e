//! Implicit rules: pattern rules and suffix rules in one shape.
ghost use Rattle.std.specs.Prelude.{◌≡◌, [], ◌∷◌, ◌++◌, map, option_map, IfOk, OnOk};
ghost use Rattle.mk_makefile.specs.Source.{with_stem, seen_by, stem_of, source_at};

use byte_strings::{ByteString, ByteStrings};
use mk_rule_lines::{parted, percent};
use std::alloc::{AllocError, Global};

/// A rule that makes any name of one form: `before`, a stem and `after`. In each of its prerequisites the stem stands for the first
/// `%`. Where it leaves folders aside, the form is that of a name without its folder, which then stands before all that the stem is
/// in.
///
/// The suffix rule `.c.o` has `.o` behind the stem and is made from `%.c`; so is any name by the suffix rule `.c`.
pub struct Form {
    pub before: ByteString,
    pub after: ByteString,
    /// The ordinary prerequisites, then the order-only ones.
    pub prerequisites: ByteStrings,
    /// How many are ordinary.
    pub ordinary: usize,
    /// Whether the folder of a name is left aside: it stands before the sources, and is no part of what the form is told by.
    pub leaves_folders: bool,
    /// Whether the stem may be empty: the suffix rule `.c` makes any name, also the empty one.
    pub takes_empty: bool,
    /// Which rule line has the recipe, from 0.
    pub rule: usize,
    /// The first target of a rule of several, where this is the form of another one: it is made by the run for the first.
    pub leader: Option<ByteString>,
    /// The other targets of a rule of several, where this is the form of the first: its run makes them too.
    pub others: ByteStrings,
}

impl Drop for Form {
    fn drop(self) {
        let Form {
            before: _,
            after: _,
            prerequisites: _,
            ordinary: _,
            leaves_folders: _,
            takes_empty: _,
            rule: _,
            leader: _,
            others: _,
        } = self;
    }
}

/// What an implicit rule makes a name from.
#[derive(Drop)]
pub struct Source {
    /// The prerequisites that the rule gives it: the ordinary ones, then the order-only ones.
    pub names: ByteStrings,
    /// How many are ordinary.
    pub ordinary: usize,
    pub stem: ByteString,
    /// Which rule line has the recipe, from 0.
    pub rule: usize,
    /// The name by whose run the rule makes this one, if it does: that of the rule's first target.
    pub leader: Option<ByteString>,
    /// What else the rule's run for this name makes.
    pub others: ByteStrings,
}

/// A pattern with the stem in the place of its first `%`, in the folder.
fn with_stem(
    alloc: Global,
    pattern: &[u8],
    folder: &[u8],
    stem: &[u8],
) -> Result<ByteString, AllocError>
    ensures { IfOk result (λ name. name ≡ with_stem folder.now stem.now pattern.now) }
{
    let Some(place) = percent(pattern) else {
        return ByteString::from_slice(alloc, pattern);
    };
    let mut name = Vec::from_slice(alloc, folder)?;
    name.extend_from_slice(&pattern[..place])?;
    name.extend_from_slice(stem)?;
    name.extend_from_slice(&pattern[place + 1..])?;
    Ok(ByteString::new(name))
}

/// The name of a rule's first target, where the form is that of another one.
fn leader_with(
    alloc: Global,
    leader: &Option<ByteString>,
    folder: &[u8],
    stem: &[u8],
) -> Result<Option<ByteString>, AllocError>
    ensures { IfOk result (λ name. name ≡ option_map (with_stem folder.now stem.now) leader.now) }
{
    match leader {
        Some(pattern) => Ok(Some(with_stem(alloc, pattern.as_slice(), folder, stem)?)),
        None => Ok(None),
    }
}

/// The patterns with the stem in the place of their first `%`, in the folder.
fn with_stems(
    alloc: Global,
    patterns: &ByteStrings,
    folder: &[u8],
    stem: &[u8],
) -> Result<ByteStrings, AllocError>
    ensures { IfOk result (λ names. names ≡ map (with_stem folder.now stem.now) patterns.now) }
{
    let mut names = ByteStrings::empty(alloc);
    for pattern in patterns.iter() {
        names.push(with_stem(alloc, pattern, folder, stem)?.as_slice())?;
    }
    Ok(names)
}

impl Form {
    /// The folder of a name that is left aside, if one is, and the rest.
    fn seen<'n>(&self, name: &'n [u8]) -> (&'n [u8], &'n [u8])
        ensures { (result.0.now, result.1.now) ≡ seen_by self.now name.now }
    {
        if self.leaves_folders {
            parted(name)
        } else {
            (&[], name)
        }
    }

    /// The stem of a name of this form, behind the folder that is left aside: together at least one byte, unless they may be
    /// empty.
    pub fn stem<'n>(&self, name: &'n [u8]) -> Option<(&'n [u8], &'n [u8])>
        ensures { option_map (λ s. (s.0.now, s.1.now)) result ≡ stem_of self.now name.now }
    {
        let (folder, file) = self.seen(name);
        let behind = file.strip_prefix(self.before.as_slice())?;
        let stem = behind.strip_suffix(self.after.as_slice())?;
        if folder.is_empty() && stem.is_empty() && !self.takes_empty {
            return None;
        }
        Some((folder, stem))
    }

    /// What a name with this stem in this folder is made from.
    pub fn source(&self, alloc: Global, folder: &[u8], stem: &[u8]) -> Result<Source, AllocError>
        ensures { IfOk result (λ source. source ≡ source_at self.now (folder.now, stem.now)) }
    {
        let mut whole = Vec::from_slice(alloc, folder)?;
        whole.extend_from_slice(stem)?;
        Ok(Source {
            names: with_stems(alloc, &self.prerequisites, folder, stem)?,
            ordinary: self.ordinary,
            stem: ByteString::new(whole),
            rule: self.rule,
            leader: leader_with(alloc, &self.leader, folder, stem)?,
            others: with_stems(alloc, &self.others, folder, stem)?,
        })
    }
}
