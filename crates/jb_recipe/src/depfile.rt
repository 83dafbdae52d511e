//! Files of their own into which recipes write what they read, beside the report or in its place.

use crate::elsewhere::places_told;
use crate::{NotDone, Place, PlaceFault};
use byte_strings::{ByteString, ByteStrings};
use jb_marks::Sight;
use mk_depfiles::names_of;
use std::alloc::{AllocError, Global};

/// Where a recipe may write one, and what was told of it before the recipe.
#[derive(Drop)]
struct Depfile {
    path: ByteString,
    before: Sight,
    /// The makefile says so; else the options of a compiler do.
    is_said: bool,
}

/// Where a recipe may write them, and of how many sources compilers do.
#[derive(Drop)]
pub(crate) struct Depfiles {
    places: Vec<Depfile>,
    sources: usize,
}

/// What a recipe says that it read.
#[derive(Drop)]
pub(crate) struct Read {
    /// None where it says nothing.
    pub(crate) names: Option<ByteStrings>,
    /// It says it where the makefile says that it does, or of each source.
    pub(crate) is_whole: bool,
    /// The files that it didn't write, though the makefile says that it does; None where it wrote all.
    pub(crate) unwritten: Option<ByteStrings>,
}

fn are_texts(names: &ByteStrings) -> bool {
    names.iter().all(|name| str::from_utf8(name).is_ok())
}

/// What a depfile names, or why it isn't taken.
fn names_in(alloc: Global, text: &[u8]) -> Result<Result<ByteStrings, NotDone>, AllocError> {
    match names_of(alloc, text)? {
        Ok(names) if are_texts(&names) => Ok(Ok(names)),
        Ok(_) => Ok(Err(NotDone::NotText)),
        Err(refusal) => Ok(Err(NotDone::BadDepfile(refusal))),
    }
}

impl Depfile {
    /// What it names, where it is another file than before the recipe; None where it isn't.
    fn names<P: Place>(
        &self,
        alloc: Global,
        place: &P,
    ) -> Result<Result<Option<ByteStrings>, NotDone>, AllocError> {
        let path = self.path.as_slice();
        let behind = place.look(path);
        if behind == self.before || !matches!(behind, Sight::File { .. }) {
            return Ok(Ok(None));
        }
        match place.report(alloc, path) {
            Ok(Some(text)) => match names_in(alloc, &text)? {
                Ok(names) => Ok(Ok(Some(names))),
                Err(not_done) => Ok(Err(not_done)),
            },
            Ok(None) => Ok(Ok(None)),
            Err(PlaceFault::Device(error)) => Ok(Err(NotDone::Unread(error))),
            Err(PlaceFault::OutOfMemory) => Err(AllocError),
        }
    }
}

fn joined(
    alloc: Global,
    first: Option<ByteStrings>,
    second: ByteStrings,
) -> Result<ByteStrings, AllocError> {
    let Some(mut all) = first else {
        return Ok(second);
    };
    for name in &second {
        all.push(name)?;
    }
    Ok(all)
}

impl Read {
    pub(crate) fn nothing() -> Read {
        Read {
            names: None,
            is_whole: false,
            unwritten: None,
        }
    }

    fn add(&mut self, alloc: Global, names: ByteStrings, is_said: bool) -> Result<(), AllocError> {
        self.names = Some(joined(alloc, self.names.take(), names)?);
        self.is_whole = self.is_whole || is_said;
        Ok(())
    }

    fn add_unwritten(&mut self, alloc: Global, path: &[u8]) -> Result<(), AllocError> {
        let mut name = ByteStrings::empty(alloc);
        name.push(path)?;
        self.unwritten = Some(joined(alloc, self.unwritten.take(), name)?);
        Ok(())
    }
}

impl Depfiles {
    /// The places that these commands tell of, and those that the makefile says, looked at before they are run. Where it says that
    /// there are none, none are told of.
    pub(crate) fn look<P: Place>(
        alloc: Global,
        place: &P,
        commands: &ByteStrings,
        said: Option<&ByteStrings>,
    ) -> Result<Depfiles, AllocError> {
        let mut depfiles = Depfiles {
            places: Vec::new(alloc),
            sources: 0,
        };
        let Some(said) = said else {
            depfiles.look_as_told(alloc, place, commands)?;
            return Ok(depfiles);
        };
        for path in said {
            depfiles.look_at(alloc, place, path, true)?;
        }
        if !said.is_empty() {
            depfiles.look_as_told(alloc, place, commands)?;
        }
        Ok(depfiles)
    }

    fn is_said(&self, path: &[u8]) -> bool {
        self.places.iter().any(|depfile| depfile.is_said && depfile.path.as_slice() == path)
    }

    /// Looks at a place, unless the makefile has said it before.
    fn look_at<P: Place>(
        &mut self,
        alloc: Global,
        place: &P,
        path: &[u8],
        is_said: bool,
    ) -> Result<(), AllocError> {
        if self.is_said(path) {
            return Ok(());
        }
        self.places.push(Depfile {
            path: ByteString::from_slice(alloc, path)?,
            before: place.look(path),
            is_said,
        })?;
        Ok(())
    }

    fn look_as_told<P: Place>(
        &mut self,
        alloc: Global,
        place: &P,
        commands: &ByteStrings,
    ) -> Result<(), AllocError> {
        for command in commands {
            let told = places_told(alloc, command)?;
            self.sources = self.sources.saturating_add(told.sources);
            for number in 0..told.found.len() {
                self.look_at(alloc, place, told.found.name(number), false)?;
            }
        }
        Ok(())
    }

    /// What those name that the recipe wrote, or why one isn't taken.
    pub(crate) fn read<P: Place>(
        &self,
        alloc: Global,
        place: &P,
    ) -> Result<Result<Read, NotDone>, AllocError> {
        let mut read = Read::nothing();
        let mut count: usize = 0;
        for depfile in &self.places {
            match depfile.names(alloc, place)? {
                Ok(Some(names)) => {
                    read.add(alloc, names, depfile.is_said)?;
                    count = count.saturating_add(1);
                }
                Ok(None) => {
                    if depfile.is_said {
                        read.add_unwritten(alloc, depfile.path.as_slice())?;
                    }
                }
                Err(not_done) => return Ok(Err(not_done)),
            }
        }
        read.is_whole = read.is_whole || (count > 0 && count >= self.sources);
        Ok(Ok(read))
    }
}
