//! Which hidden prerequisites of a name are nodes, while they are taken in.
ghost use Rattle.std.specs.Prelude.{◌≡◌, ◌∷◌, ◌++◌, [], true, false, replicate, IfOk, OnOk};
ghost use Rattle.mk_nodes.specs.Hidden.{marks_kept};

use std::alloc::{AllocError, Global};
use std::boxed::Box;
use std::marker::Model;

/// Of hidden prerequisites, whether each is a node: nearly always all are, and then they are only counted.
pub(crate) struct HiddenMarks {
    count: u32,
    /// The marks of all, where one is gone.
    kept: Option<Box<Vec<bool>>>,
}

impl Model for HiddenMarks {
    ghost use Rattle.std.specs.Prelude.{Bool, List};
    ghost use Rattle.mk_nodes.specs.Hidden.{marks_kept};

    ghost Value = { List Bool };

    ghost view = { λ m. marks_kept m.count m.kept };
}

impl Drop for HiddenMarks {
    fn drop(self) {
        let HiddenMarks { count: _, kept: _ } = self;
    }
}

/// The marks of so many nodes, and of one behind them that is gone.
#[inline(never)]
fn first_gone(alloc: Global, nodes: u32) -> Result<Box<Vec<bool>>, AllocError>
    ensures { IfOk result (λ marks. marks.value.items ≡ replicate nodes true ++ false ∷ []) }
{
    let mut marks = Vec::new(alloc);
    marks.resize(nodes as usize, true)?;
    marks.push(false)?;
    Ok(Box::new(alloc, marks)?)
}

impl HiddenMarks {
    /// None so far.
    pub fn none() -> HiddenMarks
        ensures { result ≡ [] }
    {
        HiddenMarks {
            count: 0,
            kept: None,
        }
    }

    /// One more, which is a node. There is no memory for 2^32 of them.
    #[tactic(auto, using(crate::proofs::MarkLemmas::node_more))]
    pub fn add_node(&mut self) -> Result<(), AllocError>
        ensures { OnOk result (self.new ≡ self.old ++ true ∷ []) }
    {
        let count = self.count.checked_add(1).ok_or(AllocError)?;
        if let Some(marks) = &mut self.kept {
            marks.push(true)?;
        }
        self.count = count;
        Ok(())
    }

    /// One more, which is gone.
    pub fn add_gone(&mut self, alloc: Global) -> Result<(), AllocError>
        ensures { OnOk result (self.new ≡ self.old ++ false ∷ []) }
    {
        let count = self.count.checked_add(1).ok_or(AllocError)?;
        match &mut self.kept {
            Some(marks) => marks.push(false)?,
            None => self.kept = Some(first_gone(alloc, self.count)?),
        }
        self.count = count;
        Ok(())
    }

    /// How many there are, and the marks of all where one is gone.
    pub fn into_parts(self) -> (u32, Option<Box<Vec<bool>>>)
        ensures { marks_kept result.0 result.1 ≡ self }
    {
        let HiddenMarks { count, kept } = self;
        (count, kept)
    }
}
