//! When each recipe of a run ran, and what its target was made of.
ghost use Rattle.std.specs.Prelude.{◌≡◌, IfOk, length, vec_len};

use crate::fault::Fault;
use crate::reading::Reading;
use bl_log::Span;
use mk_graph::Edges;
use std::alloc::{AllocError, Global};

impl Reading {
    /// From when to when each recipe ran.
    pub(crate) fn spans(&self, alloc: Global) -> Result<Vec<Span>, Fault>
        ensures { IfOk result (λ spans. vec_len spans ≡ vec_len self.now.recipes) }
    {
        let mut spans = Vec::with_capacity(alloc, self.recipes.len())?;
        for recipe in &self.recipes {
            let end = match recipe.ended {
                Some(ended) => ended.time,
                None => self.time,
            };
            let Some(span) = Span::of(recipe.begin, end) else {
                return Err(Fault::TimeGoesBack);
            };
            spans.push(span)?;
        }
        Ok(spans)
    }

    /// Of each recipe those of what its target is made of.
    pub(crate) fn rows(&self, alloc: Global) -> Result<Edges, Fault>
        ensures { IfOk result (λ rows. length rows ≡ vec_len self.now.recipes) }
    {
        let mut rows = Edges::with_capacity(alloc, self.recipes.len())?;
        for recipe in &self.recipes {
            let row = self.row(alloc, recipe.target)?;
            rows.push_row(row.as_slice())?;
        }
        Ok(rows)
    }

    fn row(&self, alloc: Global, target: u32) -> Result<Vec<u32>, AllocError> {
        let mut row = Vec::new(alloc);
        for name in self.names_of(target) {
            if let Some(recipe) = self.recipe_of(*name) {
                if let Ok(recipe) = u32::try_from(recipe) {
                    row.push(recipe)?;
                }
            }
        }
        Ok(row)
    }

    /// The names that a target is made of, where it was judged.
    fn names_of(&self, target: u32) -> &[u32] {
        let Some(last) = self.last.get(target as usize) else {
            return &[];
        };
        match (last.judged as usize).checked_sub(1) {
            Some(judged) if judged < self.made_of.len() => self.made_of.row(judged),
            _ => &[],
        }
    }
}
