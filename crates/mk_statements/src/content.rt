//! A statement as it is kept, with the texts that it is told by.
ghost use Rattle.std.specs.Prelude.{◌≡◌, IfOk, option_map, option_copied, true};
ghost use Rattle.std.specs.List.{list_any};
ghost use Rattle.byte_strings.specs.Blanks.{trimmed};
ghost use Rattle.mk_lines.specs.Text.{is_nul, is_hash, is_semicolon, without_last};
ghost use Rattle.mk_statements.specs.Cut.{cut, recipe_at, borrowed};
ghost use Rattle.mk_statements.specs.Told.{told_by, told_of, or_rule, rule_told, behind_tab, with_body, nothing, kind_of};
ghost use Rattle.mk_statements.specs.Reading.{uncommented, rule_of, plain, meaning, meaning_of, meaning_by, stated, joined_by, body_told, defined, IsBegun};

use crate::body::Body;
use crate::cut::cut;
use crate::logical::LogicalText;
use crate::said::{Define, Fault, Kind, Said, kind_of, said_of};
use crate::statement::Statement;
use byte_strings::trim;
use mk_assignments::Statement as Variables;
use mk_lines::{LineText, begins_with, without_first, without_last};
use std::alloc::{AllocError, Global};

#[derive(Drop)]
pub(crate) enum Content<'a> {
    Refused(Fault),
    /// What this says, which is no rule.
    Text(LineText<'a>),
    /// A line to be expanded, and its recipe.
    Rule(LineText<'a>, Option<Vec<u8>>),
    /// The line of a `define`, its body's lines, each with its newline, and whether text stands behind its `endef`.
    Define(LineText<'a>, Vec<u8>, bool),
    /// A line that begins with a TAB, as it stands, and joined without its comment.
    Tab(LineText<'a>, LineText<'a>),
}

/// A statement, and the number of the line in which it begins.
#[derive(Drop)]
pub struct Line<'a> {
    pub number: usize,
    pub(crate) content: Content<'a>,
}

/// How a statement begins.
#[derive(Drop)]
pub(crate) enum Begun<'a> {
    Whole(Content<'a>),
    /// By the line of a `define`.
    Opens(LineText<'a>),
}

/// A `define` of which this is the line and these are the lines of the body.
fn define_of<'a>(text: &'a [u8], lines: &'a [u8], has_text_behind: bool) -> Said<'a>
    ensures { told_by result ≡ with_body (told_of text.now) (without_last lines.now) has_text_behind }
{
    match said_of(text) {
        Some(Said::Variables(Variables::Begins(modifiers, line))) => Said::Define(Define {
            modifiers,
            line,
            body: without_last(lines),
            has_text_behind,
        }),
        _ => Said::Nothing,
    }
}

/// What a text says behind a TAB where no rule is open.
fn said_behind_tab(text: &[u8]) -> Said<'_>
    ensures { told_by result ≡ behind_tab (kind_of (told_of text.now)) (told_of text.now) }
{
    match said_of(text) {
        Some(Said::Variables(Variables::Begins(_, _))) => Said::Refused(Fault::DefineBehindTab),
        Some(said) => said,
        None => Said::Refused(Fault::RecipeBeforeTarget),
    }
}

/// What a text says that is no rule.
fn said_or_nothing(text: &[u8]) -> Said<'_>
    ensures { told_by result ≡ or_rule (told_of text.now) nothing }
{
    match said_of(text) {
        Some(said) => said,
        None => Said::Nothing,
    }
}

fn rule_said<'a>(text: &'a [u8], recipe: Option<&'a [u8]>) -> Said<'a>
    ensures { told_by result ≡ rule_told text.now (option_copied recipe.entry) }
{
    match recipe {
        Some(_) => {
            if text.is_empty() {
                return Said::Refused(Fault::RecipeWithoutRule);
            }
            Said::Expands(text, recipe)
        }
        None => Said::Expands(text, None),
    }
}

fn slice_of(recipe: &Option<Vec<u8>>) -> Option<&[u8]>
    ensures { option_copied result ≡ option_map (λ r. r.items) recipe.now }
{
    match recipe {
        Some(text) => Some(text.as_slice()),
        None => None,
    }
}

impl<'a> Line<'a> {
    /// What the statement says.
    pub fn statement(&self) -> Statement<'_>
        ensures { meaning_by result ≡ (stated self.now).meaning }
    {
        match &self.content {
            Content::Refused(fault) => Statement::Plain(Said::Refused(*fault)),
            Content::Text(text) => Statement::Plain(said_or_nothing(text.as_slice())),
            Content::Rule(text, recipe) => {
                Statement::Plain(rule_said(trim(text.as_slice()), slice_of(recipe)))
            }
            Content::Define(text, lines, has_text_behind) => Statement::Plain(define_of(
                text.as_slice(),
                lines.as_slice(),
                *has_text_behind,
            )),
            Content::Tab(kept, text) => Statement::Tab(
                without_first(kept.as_slice()),
                said_behind_tab(text.as_slice()),
            ),
        }
    }
}

fn has_hash(text: &[u8]) -> bool
    ensures { result ≡ list_any is_hash text.now }
{
    text.contains(&b'#')
}

fn has_semicolon(text: &[u8]) -> bool
    ensures { result ≡ list_any is_semicolon text.now }
{
    text.contains(&b';')
}

fn has_nul(text: &[u8]) -> bool
    ensures { result ≡ list_any is_nul text.now }
{
    text.contains(&0)
}

/// A joined line.
#[derive(Drop)]
struct Uncommented<'a> {
    /// Without its comment.
    text: LineText<'a>,
    /// With it, if it has one.
    whole: Option<LineText<'a>>,
}

impl Uncommented<'_> {
    fn joined(&self) -> &[u8]
        ensures { result.now ≡ joined_by self.now }
    {
        match &self.whole {
            Some(text) => text.as_slice(),
            None => self.text.as_slice(),
        }
    }
}

#[tactic(auto, unfolding(crate::specs::Reading::uncommented), using(crate::proofs::CutLemmas::whole))]
fn without_comment<'a>(alloc: Global, joined: LineText<'a>) -> Result<Uncommented<'a>, AllocError>
    ensures text { IfOk result (λ line. line.text ≡ uncommented joined.entry) }
    ensures joined { IfOk result (λ line. joined_by line ≡ joined.entry) }
{
    if !has_hash(joined.as_slice()) {
        return Ok(Uncommented {
            text: joined,
            whole: None,
        });
    }
    let found = cut(alloc, joined.as_slice(), false)?;
    let text = LineText::joined(found.front);
    let whole = Some(joined);
    Ok(Uncommented { text, whole })
}

/// The recipe behind a `;`.
fn recipe_behind(found: Option<(u8, &[u8])>) -> Option<&[u8]>
    ensures { option_copied result ≡ recipe_at (borrowed found.entry) }
{
    let (mark, recipe) = found?;
    if mark == b';' { Some(recipe) } else { None }
}

/// The recipe behind the `;` of a line.
fn recipe_of(alloc: Global, kept: &[u8]) -> Result<Option<Vec<u8>>, AllocError>
    ensures { IfOk result (λ recipe. option_map (λ r. r.items) recipe ≡ recipe_at (cut true kept.now).behind) }
{
    let found = cut(alloc, kept, true)?.behind;
    match recipe_behind(found) {
        Some(recipe) => {
            let recipe = Vec::from_slice(alloc, recipe)?;
            Ok(Some(recipe))
        }
        None => Ok(None),
    }
}

/// The content of a line to be expanded.
#[tactic(auto, unfolding(crate::specs::Reading::uncommented, crate::specs::Reading::rule_of), using(crate::proofs::CutLemmas::same_cut, crate::proofs::CutLemmas::no_recipe))]
fn rule_content<'a>(
    alloc: Global,
    kept: LineText<'a>,
    line: Uncommented<'a>,
) -> Result<Content<'a>, AllocError>
    requires { line.text ≡ uncommented (joined_by line) }
    ensures { IfOk result (λ content. meaning_of content ≡ plain (rule_of kept.entry (joined_by line.entry))) }
{
    if !has_semicolon(kept.as_slice()) && !has_semicolon(line.joined()) {
        return Ok(Content::Rule(line.text, None));
    }
    let front = cut(alloc, line.joined(), true)?.front;
    let recipe = recipe_of(alloc, kept.as_slice())?;
    Ok(Content::Rule(LineText::joined(front), recipe))
}

/// How a statement begins with this logical line.
#[tactic(auto, using(crate::proofs::ReadingLemmas::with_nul, crate::proofs::ReadingLemmas::with_tab, crate::proofs::ReadingLemmas::with_text, crate::proofs::ReadingLemmas::with_define, crate::proofs::ReadingLemmas::with_rule))]
pub(crate) fn beginning_of<'a>(
    alloc: Global,
    line: LogicalText<'a>,
) -> Result<Begun<'a>, AllocError>
    ensures { IfOk result (λ begun. IsBegun line.entry.kept line.entry.joined begun) }
{
    let LogicalText { kept, joined } = line;
    if has_nul(kept.as_slice()) {
        return Ok(Begun::Whole(Content::Refused(Fault::HasNul)));
    }
    let line = without_comment(alloc, joined)?;
    if begins_with(kept.as_slice(), b'\t') {
        return Ok(Begun::Whole(Content::Tab(kept, line.text)));
    }
    match kind_of(line.text.as_slice()) {
        Kind::Says => Ok(Begun::Whole(Content::Text(line.text))),
        Kind::Begins => Ok(Begun::Opens(line.text)),
        Kind::Rule => {
            let content = rule_content(alloc, kept, line)?;
            Ok(Begun::Whole(content))
        }
    }
}

/// The content of a `define` with this line.
#[tactic(auto, unfolding(crate::specs::Reading::defined))]
pub(crate) fn content_of_body<'a>(text: LineText<'a>, body: Body) -> Content<'a>
    ensures { meaning_of result ≡ plain (body_told text.entry body.lines.items body.has_text_behind) }
{
    let Body {
        lines,
        has_text_behind,
    } = body;
    match has_text_behind {
        None => Content::Refused(Fault::MissingEndef),
        Some(has_text_behind) => {
            if has_nul(lines.as_slice()) {
                return Content::Refused(Fault::HasNul);
            }
            Content::Define(text, lines, has_text_behind)
        }
    }
}
