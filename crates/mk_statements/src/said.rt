//! What a line says that is no recipe's.
ghost use Rattle.std.specs.Prelude.{◌≡◌, option_map};
ghost use Rattle.mk_conditionals.specs.Cut.{front_word, behind_word};
ghost use Rattle.mk_statements.specs.Told.{told_by, told_of, worded, kind_of};

use byte_strings::{first_word, trim_start};
use mk_assignments::{DefineLine, Modifiers, Statement, statement_of};
use mk_conditionals::{DirectiveLine, directive_of};

/// Why a line is refused where it counts.
#[derive(Clone, Copy, Debug, PartialEq, Eq)]
pub enum Fault {
    /// A NUL byte stands in it.
    HasNul,
    /// A `define` has no `endef`.
    MissingEndef,
    /// A `define` stands behind a TAB, where no rule is open.
    DefineBehindTab,
    /// A line is a recipe's, and no rule is open.
    RecipeBeforeTarget,
    /// Nothing stands before the `;` of a recipe.
    RecipeWithoutRule,
}

/// A `define` with its body.
#[derive(Clone, Copy)]
pub struct Define<'a> {
    pub modifiers: Modifiers,
    pub line: DefineLine<'a>,
    /// Its lines, with a newline between each two.
    pub body: &'a [u8],
    /// Whether text stands behind its `endef`, which is passed over. GNU make tells it as an error, and goes on.
    pub has_text_behind: bool,
}

/// What a line says. Its texts are to be expanded, but that of a recipe.
#[derive(Clone, Copy)]
pub enum Said<'a> {
    /// A blank line, or a comment.
    Nothing,
    Conditional(DirectiveLine<'a>),
    Variables(Statement<'a>),
    Define(Define<'a>),
    /// `include`, and whether its files have to be there.
    Includes(bool, &'a [u8]),
    /// `vpath`
    Vpath(&'a [u8]),
    /// `load`, and whether its files have to be there.
    Loads(bool, &'a [u8]),
    /// A rule, a definition for targets, or what comes to nothing; and what stands behind a `;`.
    Expands(&'a [u8], Option<&'a [u8]>),
    Refused(Fault),
}

/// What becomes of a line by what it says.
#[derive(Clone, Copy)]
pub(crate) enum Kind {
    Says,
    /// It begins a `define`.
    Begins,
    /// It says nothing else, and so it is a rule's.
    Rule,
}

#[tactic(auto, unfolding(crate::specs::Told::worded))]
fn worded<'a>(word: &[u8], rest: &'a [u8]) -> Option<Said<'a>>
    ensures { option_map told_by result ≡ worded word.now rest.now }
{
    if word == b"include".as_slice() {
        return Some(Said::Includes(true, rest));
    }
    if word == b"-include".as_slice() || word == b"sinclude".as_slice() {
        return Some(Said::Includes(false, rest));
    }
    if word == b"vpath".as_slice() {
        return Some(Said::Vpath(rest));
    }
    if word == b"load".as_slice() {
        return Some(Said::Loads(true, rest));
    }
    if word == b"-load".as_slice() {
        return Some(Said::Loads(false, rest));
    }
    None
}

/// What a line says by its first word.
#[tactic(auto, unfolding(mk_conditionals::specs::Cut::front_word, mk_conditionals::specs::Cut::behind_word))]
fn said_by_word(text: &[u8]) -> Option<Said<'_>>
    ensures { option_map told_by result ≡ worded (front_word text.now) (behind_word text.now) }
{
    let line = trim_start(text);
    let word = first_word(line);
    let rest = line.get(word.len()..).unwrap_or(b"".as_slice());
    worded(word, trim_start(rest))
}

/// What a line says, of which the comment is taken off. A rule says nothing here.
#[tactic(auto, unfolding(crate::specs::Told::told_of))]
pub(crate) fn said_of(text: &[u8]) -> Option<Said<'_>>
    ensures { option_map told_by result ≡ told_of text.now }
{
    if trim_start(text).is_empty() {
        return Some(Said::Nothing);
    }
    if let Some(statement) = statement_of(text) {
        return Some(Said::Variables(statement));
    }
    if let Some(line) = directive_of(text) {
        return Some(Said::Conditional(line));
    }
    said_by_word(text)
}

pub(crate) fn kind_of(text: &[u8]) -> Kind
    ensures { result ≡ kind_of (told_of text.now) }
{
    match said_of(text) {
        Some(Said::Variables(Statement::Begins(_, _))) => Kind::Begins,
        Some(_) => Kind::Says,
        None => Kind::Rule,
    }
}
