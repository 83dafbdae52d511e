//! What an expansion asks for: variables, and the world outside.
ghost use Rattle.std.specs.Prelude.{◌≡◌, IfOk, option_map};
ghost use Rattle.mk_functions.specs.Variables.{Variables};
ghost use Rattle.mk_functions.specs.Values.{Answers};
ghost use Rattle.mk_functions.specs.Shown.{variable_of};

use crate::variable::Variable;
use mk_pieces::{Message, Question};
use std::alloc::{AllocError, Global};

/// What names stand for.
pub trait Definitions {
    ghost variables: { Self → Variables };

    /// The variable of this name, where it is defined.
    fn variable(&self, name: &[u8]) -> Option<Variable<'_>>
        ensures { option_map variable_of result ≡ variables self.now name.now };
}

/// The world outside. An answer narrows which worlds are still possible, and never widens that.
pub trait Outside {
    /// The worlds that agree with all that was answered so far.
    ghost allows: { Self → Answers → Type 0 };

    /// What a command writes, which files there are of a pattern, or what names of files stand for.
    fn answer(
        &mut self,
        alloc: Global,
        question: Question,
        text: &[u8],
    ) -> Result<Vec<u8>, AllocError>
        ensures answer { IfOk result (λ v. (w : Answers) → allows self.new w → v.items ≡ w question text.now) }
        ensures narrows { (w : Answers) → allows self.new w → allows self.old w };

    /// Says a text that `info` or `warning` has.
    fn say(&mut self, alloc: Global, message: Message, text: &[u8]) -> Result<(), AllocError>
        ensures { (w : Answers) → allows self.new w → allows self.old w };
}
