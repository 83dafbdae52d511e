//! The functions, and their names.
ghost use Rattle.std.specs.Prelude.{◌≡◌, bytes_eq};
ghost use Rattle.std.specs.Map.{lookup};
ghost use Rattle.mk_pieces.specs.Function.{function_named, most};

/// What is asked of the world outside.
#[derive(Clone, Copy)]
pub enum Question {
    Shell,
    Wildcard,
    RealPath,
    AbsPath,
}

/// What is said, and leaves no value.
#[derive(Clone, Copy)]
pub enum Message {
    Warning,
    Info,
}

/// Functions of the words of one value.
#[derive(Clone, Copy)]
pub enum OfWords {
    Strip,
    Sort,
    Words,
    FirstWord,
    LastWord,
    Dir,
    NotDir,
    Suffix,
    BaseName,
}

/// Functions of a variable, by its name.
#[derive(Clone, Copy)]
pub enum OfVariable {
    Origin,
    Flavor,
    Value,
}

/// Functions of two values.
#[derive(Clone, Copy)]
pub enum OfTwo {
    FindString,
    Filter,
    FilterOut,
    Word,
    AddSuffix,
    AddPrefix,
    Join,
}

/// Functions of three values.
#[derive(Clone, Copy)]
pub enum OfThree {
    Subst,
    PatSubst,
    WordList,
}

/// Functions that have no value here: they are refused by name.
#[derive(Clone, Copy)]
pub enum Refused {
    Eval,
    File,
    Let,
    IntCmp,
    Guile,
}

/// A function of GNU make.
#[derive(Clone, Copy)]
pub enum Function {
    OfWords(OfWords),
    OfVariable(OfVariable),
    Asks(Question),
    Says(Message),
    /// Ends everything with a text.
    Error,
    OfTwo(OfTwo),
    OfThree(OfThree),
    If,
    Or,
    And,
    Foreach,
    Call,
    Refused(Refused),
}

/// The names (GNU make manual, "Functions for Transforming Text").
pub const FUNCTIONS: [(&[u8], Function); 39] = [
    (b"subst", Function::OfThree(OfThree::Subst)),
    (b"patsubst", Function::OfThree(OfThree::PatSubst)),
    (b"strip", Function::OfWords(OfWords::Strip)),
    (b"findstring", Function::OfTwo(OfTwo::FindString)),
    (b"filter", Function::OfTwo(OfTwo::Filter)),
    (b"filter-out", Function::OfTwo(OfTwo::FilterOut)),
    (b"sort", Function::OfWords(OfWords::Sort)),
    (b"word", Function::OfTwo(OfTwo::Word)),
    (b"wordlist", Function::OfThree(OfThree::WordList)),
    (b"words", Function::OfWords(OfWords::Words)),
    (b"firstword", Function::OfWords(OfWords::FirstWord)),
    (b"lastword", Function::OfWords(OfWords::LastWord)),
    (b"dir", Function::OfWords(OfWords::Dir)),
    (b"notdir", Function::OfWords(OfWords::NotDir)),
    (b"suffix", Function::OfWords(OfWords::Suffix)),
    (b"basename", Function::OfWords(OfWords::BaseName)),
    (b"addsuffix", Function::OfTwo(OfTwo::AddSuffix)),
    (b"addprefix", Function::OfTwo(OfTwo::AddPrefix)),
    (b"join", Function::OfTwo(OfTwo::Join)),
    (b"wildcard", Function::Asks(Question::Wildcard)),
    (b"realpath", Function::Asks(Question::RealPath)),
    (b"abspath", Function::Asks(Question::AbsPath)),
    (b"if", Function::If),
    (b"or", Function::Or),
    (b"and", Function::And),
    (b"intcmp", Function::Refused(Refused::IntCmp)),
    (b"foreach", Function::Foreach),
    (b"file", Function::Refused(Refused::File)),
    (b"let", Function::Refused(Refused::Let)),
    (b"call", Function::Call),
    (b"value", Function::OfVariable(OfVariable::Value)),
    (b"eval", Function::Refused(Refused::Eval)),
    (b"origin", Function::OfVariable(OfVariable::Origin)),
    (b"flavor", Function::OfVariable(OfVariable::Flavor)),
    (b"error", Function::Error),
    (b"warning", Function::Says(Message::Warning)),
    (b"info", Function::Says(Message::Info)),
    (b"shell", Function::Asks(Question::Shell)),
    (b"guile", Function::Refused(Refused::Guile)),
];

/// The function of this name, of those in a table.
fn function_in(table: &[(&[u8], Function)], name: &[u8]) -> Option<Function>
    ensures { result ≡ lookup (λ key. bytes_eq key.now name.now) table.now }
{
    for entry in table {
        if entry.0 == name {
            return Some(entry.1);
        }
    }
    None
}

/// The function of this name.
#[tactic(auto, unfolding(crate::specs::Function::function_named))]
pub fn function_named(name: &[u8]) -> Option<Function>
    ensures { result ≡ function_named name.now }
{
    function_in(&FUNCTIONS, name)
}

impl Function {
    /// How many arguments it takes at most; 0 stands for any number.
    pub fn most(self) -> usize
        ensures { result ≡ most self }
    {
        match self {
            Function::OfWords(_)
            | Function::OfVariable(_)
            | Function::Asks(_)
            | Function::Says(_)
            | Function::Error => 1,
            Function::OfTwo(_) => 2,
            Function::OfThree(_) | Function::If | Function::Foreach => 3,
            Function::Or | Function::And | Function::Call => 0,
            Function::Refused(Refused::Eval | Refused::Guile) => 1,
            Function::Refused(Refused::File) => 2,
            Function::Refused(Refused::Let) => 3,
            Function::Refused(Refused::IntCmp) => 5,
        }
    }
}
