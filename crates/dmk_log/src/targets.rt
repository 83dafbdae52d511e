//! The names of a graph, and what each is made from.
ghost use Rattle.std.specs.Prelude.{◌<◌, length, IfOk, IfSome};

use byte_strings::ByteStrings;
use mk_graph::Edges;
use mk_names::Names;
use plain_text::to_plain;
use std::alloc::{AllocError, Global};

/// The names of a graph, and what each is made from.
#[derive(Drop)]
pub(crate) struct Targets {
    names: Names,
    made_of: Edges,
    /// The numbers of those names that are told otherwise, with a blank for each control character.
    odd: Vec<usize>,
}

impl Targets {
    pub(crate) fn none(alloc: Global) -> Result<Targets, AllocError> {
        Ok(Targets {
            names: Names::new(alloc),
            made_of: Edges::with_capacity(alloc, 0)?,
            odd: Vec::new(alloc),
        })
    }

    pub(crate) fn of(alloc: Global, names: &Names, made_of: &Edges) -> Result<Targets, AllocError> {
        let made_of = made_of.copy(alloc)?;
        let mut copies = Names::new(alloc);
        let mut odd = Vec::new(alloc);
        for number in 0..names.len() {
            let name = names.name(number);
            let _is_new = copies.mention(alloc, name)?;
            if is_odd(alloc, name)? {
                odd.push(number)?;
            }
        }
        Ok(Targets {
            names: copies,
            made_of,
            odd,
        })
    }

    /// The number of a name that is told so.
    pub(crate) fn told(&self, alloc: Global, text: &[u8]) -> Result<Option<usize>, AllocError>
        ensures { IfOk result (λ found. IfSome found (λ number. number < length self.now.names)) }
    {
        if let Some(number) = self.names.number_of(text) {
            return Ok(Some(number as usize));
        }
        for number in &self.odd {
            if *number < self.names.len()
                && to_plain(alloc, self.names.name(*number))?.as_slice() == text
            {
                return Ok(Some(*number));
            }
        }
        Ok(None)
    }

    pub(crate) fn name(&self, number: usize) -> &[u8] {
        if number < self.names.len() {
            self.names.name(number)
        } else {
            &[]
        }
    }

    /// What a name is made from directly.
    pub(crate) fn prerequisites(
        &self,
        alloc: Global,
        number: usize,
    ) -> Result<ByteStrings, AllocError> {
        let mut found = ByteStrings::empty(alloc);
        if number >= self.made_of.len() {
            return Ok(found);
        }
        for prerequisite in self.made_of.row(number) {
            found.push(self.name(*prerequisite as usize))?;
        }
        Ok(found)
    }
}

/// Whether something stands in its place where a name is told.
fn is_odd(alloc: Global, name: &[u8]) -> Result<bool, AllocError> {
    if name.is_ascii() && !name.iter().any(|byte| *byte < b' ') {
        return Ok(name.contains(&0x7f));
    }
    Ok(to_plain(alloc, name)?.as_slice() != name)
}
