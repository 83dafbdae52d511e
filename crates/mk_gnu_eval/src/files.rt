//! The files that makefiles include.
ghost use Rattle.std.specs.Prelude.{◌≡◌, option_map, IfOk};
ghost use Rattle.mk_gnu_eval.specs.World.{Contents};

use std::alloc::{AllocError, Global};
use std::rc::Rc;

/// Gives the files that makefiles include. An answer narrows what they may hold, and never widens that.
pub trait Files {
    /// The contents that agree with all that was answered so far.
    ghost allows: { Self → Contents → Type 0 };

    /// The content of a file, or `None` where it can't be read. Names are as they stand in makefiles.
    fn read(&mut self, alloc: Global, name: &[u8]) -> Result<Option<Rc<Vec<u8>>>, AllocError>
        ensures content { IfOk result (λ answer. (contents : Contents) → allows self.new contents
            → option_map (λ text. text.value.items) answer ≡ contents name.now) }
        ensures narrows { (contents : Contents) → allows self.new contents → allows self.old contents };
}
