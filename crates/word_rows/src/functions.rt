//! The functions, by the names that GNU make has for them.
use crate::arguments::{arguments, number_fault};
use crate::assignments::say_statement;
use crate::conditionals::say_taken;
use crate::depfiles::{say_names, say_place};
use crate::expansions::Setting;
use crate::statements::say_statements;
use mk_words::{
    NumberFault, add_prefix, add_suffix, basename, dir, filter, filter_out, find_string,
    first_word, join, last_word, notdir, patsubst, sort, strip, subst, suffix, word, word_count,
    word_list,
};
use row_files::{Answered, Calls, Report, RowFault, Setup, Words, World, bytes};
use std::alloc::{AllocError, Global};

/// What a row sets up is for its expansions; other calls need nothing.
#[derive(Drop)]
pub(crate) struct Functions {
    setting: Setting,
}

impl<'a> Setup<'a> for Functions {
    fn new(alloc: Global) -> Functions {
        Functions {
            setting: Setting::new(alloc),
        }
    }

    fn takes(&mut self, alloc: Global, line: &'a str) -> Result<bool, RowFault> {
        self.setting.takes(alloc, line)
    }

    fn are_met(
        &mut self,
        alloc: Global,
        calls: &Calls<'a>,
        report: &mut Report<'_>,
    ) -> Result<bool, RowFault> {
        Ok(calls.are_met(alloc, self, report)?)
    }
}

/// The words that numbers name, or what is wrong with these.
fn say_found(out: &mut String, found: Result<&[u8], NumberFault>) -> Result<(), AllocError> {
    match found {
        Ok(text) => bytes::say_all(out, text),
        Err(fault) => out.push_str(number_fault(fault)),
    }
}

/// A text that a function made.
fn say_made(out: &mut String, made: Result<Vec<u8>, AllocError>) -> Answered {
    let text = made?;
    let answered = bytes::say_all(out, text.as_slice());
    drop(text);
    Ok(answered?)
}

fn say_count(out: &mut String, count: usize) -> Answered {
    Ok(write!(out, "{count}")?)
}

/// A function of file names.
fn of_names(alloc: Global, name: &str, text: &[u8], out: &mut String) -> Answered {
    match name {
        "dir" => say_made(out, dir(alloc, text)),
        "notdir" => say_made(out, notdir(alloc, text)),
        "suffix" => say_made(out, suffix(alloc, text)),
        "basename" => say_made(out, basename(alloc, text)),
        _ => Err(RowFault::Word),
    }
}

/// A function of a text alone.
fn of_one(alloc: Global, name: &str, text: &[u8], out: &mut String) -> Answered {
    match name {
        "words" => say_count(out, word_count(text)),
        "firstword" => Ok(bytes::say_all(out, first_word(text))?),
        "lastword" => Ok(bytes::say_all(out, last_word(text))?),
        "strip" => say_made(out, strip(alloc, text)),
        "sort" => say_made(out, sort(alloc, text)),
        _ => of_names(alloc, name, text, out),
    }
}

/// A function of words, with another argument in front.
fn of_words(alloc: Global, name: &str, first: &[u8], text: &[u8], out: &mut String) -> Answered {
    match name {
        "addsuffix" => say_made(out, add_suffix(alloc, first, text)),
        "addprefix" => say_made(out, add_prefix(alloc, first, text)),
        "join" => say_made(out, join(alloc, first, text)),
        "filter" => say_made(out, filter(alloc, first, text)),
        "filter-out" => say_made(out, filter_out(alloc, first, text)),
        _ => Err(RowFault::Word),
    }
}

/// A function of a text, with another argument in front.
fn of_two(alloc: Global, name: &str, first: &[u8], text: &[u8], out: &mut String) -> Answered {
    match name {
        "word" => Ok(say_found(out, word(first, text))?),
        "findstring" => Ok(bytes::say_all(out, find_string(first, text))?),
        "depfile-of" => say_place(alloc, first, text, out),
        _ => of_words(alloc, name, first, text, out),
    }
}

/// A function of a text, with two other arguments in front.
fn of_three(
    alloc: Global,
    name: &str,
    first: &[u8],
    second: &[u8],
    text: &[u8],
    out: &mut String,
) -> Answered {
    match name {
        "wordlist" => Ok(say_found(out, word_list(first, second, text))?),
        "subst" => say_made(out, subst(alloc, first, second, text)),
        "patsubst" => say_made(out, patsubst(alloc, first, second, text)),
        _ => Err(RowFault::Word),
    }
}

impl Functions {
    /// What is read of a text, or a function of it.
    fn of_text(&mut self, alloc: Global, name: &str, text: &[u8], out: &mut String) -> Answered {
        match name {
            "expand" => self.setting.say_value(alloc, text, out),
            "lines" => say_taken(alloc, text, out),
            "variables" => say_statement(text, out),
            "statements" => say_statements(alloc, text, out),
            "take" => self.setting.say_taken(alloc, text, b"", out),
            "read" => self.setting.say_read(alloc, text, out),
            "makefile" => self.setting.say_makefile(alloc, text, out),
            "line" => self.setting.say_line(alloc, text, None, out),
            "argument" => self.setting.say_given(alloc, text, out),
            "environment" => self.setting.say_environment(alloc, text, out),
            "depfile" => say_names(alloc, text, out),
            _ => of_one(alloc, name, text, out),
        }
    }

    fn answer(
        &mut self,
        alloc: Global,
        name: &str,
        given: &[Vec<u8>],
        out: &mut String,
    ) -> Answered {
        match given {
            [text] => self.of_text(alloc, name, text, out),
            [first, text] if name == "take" => self.setting.say_taken(alloc, first, text, out),
            [text, recipe] if name == "line" => self
                .setting
                .say_line(alloc, text, Some(recipe), out),
            [first, text] => of_two(alloc, name, first, text, out),
            [first, second, text] => of_three(alloc, name, first, second, text, out),
            _ => Err(RowFault::Word),
        }
    }
}

impl World for Functions {
    // What is lent to an answer is let go by one call.
    fn call(&mut self, alloc: Global, words: &mut Words<'_>, out: &mut String) -> Answered {
        let name = words.next();
        if name == "export-all" && words.rest.is_empty() {
            return self.setting.say_all_exported(out);
        }
        if name == "recipes" && words.rest.is_empty() {
            return self.setting.say_recipes(out);
        }
        let given = arguments(alloc, words.rest)?;
        let answered = self.answer(alloc, name, &given, out);
        drop(given);
        answered
    }
}
