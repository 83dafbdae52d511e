//! What functions are called by.
ghost use Rattle.std.specs.Prelude.{◌≡◌};
ghost use Rattle.mk_pieces.specs.Function.{name_of};

use crate::function::{Function, Message, OfThree, OfTwo, OfVariable, OfWords, Question, Refused};

impl OfWords {
    fn name(self) -> &'static [u8]
        ensures { result.now ≡ name_of (Function.OfWords self) }
    {
        match self {
            OfWords::Strip => b"strip",
            OfWords::Sort => b"sort",
            OfWords::Words => b"words",
            OfWords::FirstWord => b"firstword",
            OfWords::LastWord => b"lastword",
            OfWords::Dir => b"dir",
            OfWords::NotDir => b"notdir",
            OfWords::Suffix => b"suffix",
            OfWords::BaseName => b"basename",
        }
    }
}

impl OfVariable {
    fn name(self) -> &'static [u8]
        ensures { result.now ≡ name_of (Function.OfVariable self) }
    {
        match self {
            OfVariable::Origin => b"origin",
            OfVariable::Flavor => b"flavor",
            OfVariable::Value => b"value",
        }
    }
}

impl Question {
    fn name(self) -> &'static [u8]
        ensures { result.now ≡ name_of (Function.Asks self) }
    {
        match self {
            Question::Shell => b"shell",
            Question::Wildcard => b"wildcard",
            Question::RealPath => b"realpath",
            Question::AbsPath => b"abspath",
        }
    }
}

impl Message {
    fn name(self) -> &'static [u8]
        ensures { result.now ≡ name_of (Function.Says self) }
    {
        match self {
            Message::Warning => b"warning",
            Message::Info => b"info",
        }
    }
}

impl OfTwo {
    fn name(self) -> &'static [u8]
        ensures { result.now ≡ name_of (Function.OfTwo self) }
    {
        match self {
            OfTwo::FindString => b"findstring",
            OfTwo::Filter => b"filter",
            OfTwo::FilterOut => b"filter-out",
            OfTwo::Word => b"word",
            OfTwo::AddSuffix => b"addsuffix",
            OfTwo::AddPrefix => b"addprefix",
            OfTwo::Join => b"join",
        }
    }
}

impl OfThree {
    fn name(self) -> &'static [u8]
        ensures { result.now ≡ name_of (Function.OfThree self) }
    {
        match self {
            OfThree::Subst => b"subst",
            OfThree::PatSubst => b"patsubst",
            OfThree::WordList => b"wordlist",
        }
    }
}

impl Refused {
    fn name(self) -> &'static [u8]
        ensures { result.now ≡ name_of (Function.Refused self) }
    {
        match self {
            Refused::Eval => b"eval",
            Refused::File => b"file",
            Refused::Let => b"let",
            Refused::IntCmp => b"intcmp",
            Refused::Guile => b"guile",
        }
    }
}

impl Function {
    /// The name by which it is called.
    pub fn name(self) -> &'static [u8]
        ensures { result.now ≡ name_of self }
    {
        match self {
            Function::OfWords(f) => f.name(),
            Function::OfVariable(f) => f.name(),
            Function::Asks(f) => f.name(),
            Function::Says(f) => f.name(),
            Function::OfTwo(f) => f.name(),
            Function::OfThree(f) => f.name(),
            Function::Refused(f) => f.name(),
            Function::Error => b"error",
            Function::If => b"if",
            Function::Or => b"or",
            Function::And => b"and",
            Function::Foreach => b"foreach",
            Function::Call => b"call",
        }
    }
}
