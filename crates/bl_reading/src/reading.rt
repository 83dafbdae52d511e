//! A run as it is taken in, line by line.

ghost use Rattle.std.specs.Prelude.{◌≡◌, ◌<◌, ◌≤◌, IfOk, IfSome, OnErr, length, vec_len};

use crate::fault::Fault;
use crate::fields::{decoded, list, number, number_if_there, outcome, text};
use crate::run::{Commit, End, Ended, Recipe, Run};
use mk_graph::Edges;
use mk_names::Names;
use serde_json::Value;
use std::alloc::{AllocError, Global};

const VERSION: u64 = 1;

/// What of a name came last, counted from 1; 0 where nothing did.
#[derive(Clone, Copy)]
pub(crate) struct Last {
    recipe: u32,
    pub(crate) judged: u32,
}

/// What the lines of a run have told so far.
pub struct Reading {
    number: usize,
    words: String,
    workers: u64,
    names: Names,
    /// By the numbers of names.
    pub(crate) last: Vec<Last>,
    pub(crate) recipes: Vec<Recipe>,
    /// What a target is made of, by numbers of names: a row for each that was judged.
    pub(crate) made_of: Edges,
    commits: Vec<Commit>,
    up_to_date: u64,
    end: Option<End>,
    pub(crate) time: u64,
}

impl Drop for Reading {
    fn drop(self) {
        let Self {
            number: _,
            words: _,
            workers: _,
            names: _,
            last: _,
            recipes: _,
            made_of: _,
            commits: _,
            up_to_date: _,
            end: _,
            time: _,
        } = self;
    }
}

impl Reading {
    /// Before the first run, which has number 1.
    pub fn new(alloc: Global) -> Result<Reading, AllocError> {
        let made_of = Edges::with_capacity(alloc, 0)?;
        Ok(Reading {
            number: 0,
            words: String::new(alloc),
            workers: 0,
            names: Names::new(alloc),
            last: Vec::new(alloc),
            recipes: Vec::new(alloc),
            made_of,
            commits: Vec::new(alloc),
            up_to_date: 0,
            end: None,
            time: 0,
        })
    }

    /// Which run was begun last; 0 where none was.
    pub fn number(&self) -> usize
        ensures { result ≡ self.now.number }
    {
        self.number
    }

    /// Takes in a line that begins a run: what was told of the one before goes.
    pub fn begin_run(&mut self, alloc: Global, line: &Value) -> Result<(), Fault> {
        let version = number(line, "version")?;
        if version != VERSION {
            return Err(Fault::OtherVersion(version));
        }
        let workers = number(line, "workers")?;
        let time = number(line, "ns")?;
        let words = joined(alloc, list(line, "words")?)?;
        let before = self.number;
        *self = Reading::new(alloc)?;
        self.number = before.saturating_add(1);
        self.words = words;
        self.workers = workers;
        self.time = time;
        Ok(())
    }

    /// Takes in a line of a run. Events that aren't known are passed over.
    pub fn take(&mut self, alloc: Global, event: &str, line: &Value) -> Result<(), Fault> {
        match event {
            "judged" => self.take_judged(alloc, line),
            "begun" => self.take_begun(alloc, line),
            "ended" => self.take_ended(alloc, line),
            "commit" => self.take_commit(line),
            "end" => self.take_end(line),
            _ => Ok(()),
        }
    }

    fn take_time(&mut self, line: &Value) -> Result<u64, Fault>
        ensures forward { IfOk result (λ time. self.old.time ≤ time) }
        ensures taken { IfOk result (λ time. self.new.time ≡ time) }
        ensures err { OnErr result (self.new ≡ self.old) }
    {
        let time = number(line, "ns")?;
        if time < self.time {
            return Err(Fault::TimeGoesBack);
        }
        self.time = time;
        Ok(time)
    }

    fn take_judged(&mut self, alloc: Global, line: &Value) -> Result<(), Fault> {
        let _time = self.take_time(line)?;
        let target = self.target(alloc, line)? as usize;
        match text(line, "verdict")? {
            "up to date" => self.up_to_date = self.up_to_date.saturating_add(1),
            "out of date" => {}
            _ => return Err(Fault::Wrong("verdict")),
        }
        let row = self.prerequisites(alloc, line)?;
        self.made_of.push_row(row.as_slice())?;
        let Ok(judged) = u32::try_from(self.made_of.len()) else {
            return Err(Fault::TooMany);
        };
        if target < self.last.len() {
            self.last[target].judged = judged;
        }
        Ok(())
    }

    fn take_begun(&mut self, alloc: Global, line: &Value) -> Result<(), Fault> {
        let begin = self.take_time(line)?;
        let worker = number(line, "worker")?;
        if worker >= self.workers {
            return Err(Fault::Wrong("worker"));
        }
        let target = self.target(alloc, line)?;
        if self.open_recipe(target).is_some() {
            return Err(Fault::StillRuns);
        }
        self.recipes.push(Recipe {
            target,
            worker,
            begin,
            ended: None,
        })?;
        let Ok(recipe) = u32::try_from(self.recipes.len()) else {
            return Err(Fault::TooMany);
        };
        if (target as usize) < self.last.len() {
            self.last[target as usize].recipe = recipe;
        }
        Ok(())
    }

    fn take_ended(&mut self, alloc: Global, line: &Value) -> Result<(), Fault> {
        let time = self.take_time(line)?;
        let target = self.target(alloc, line)?;
        let Some(recipe) = self.open_recipe(target) else {
            return Err(Fault::NotBegun);
        };
        let ended = Ended {
            outcome: outcome(line)?,
            bytes: number_if_there(line, "bytes")?,
            processor_nanoseconds: number_if_there(line, "cpu_ns")?,
            time,
        };
        if number(line, "worker")? != self.recipes[recipe].worker {
            return Err(Fault::Wrong("worker"));
        }
        self.recipes[recipe].ended = Some(ended);
        Ok(())
    }

    fn take_commit(&mut self, line: &Value) -> Result<(), Fault> {
        let time = self.take_time(line)?;
        self.commits.push(Commit {
            records: number(line, "records")?,
            took_nanoseconds: number(line, "took_ns")?,
            time,
        })?;
        Ok(())
    }

    fn take_end(&mut self, line: &Value) -> Result<(), Fault> {
        let _time = self.take_time(line)?;
        self.end = Some(End {
            status: number(line, "status")?,
            made: number(line, "made")?,
            failed: number(line, "failed")?,
            not_made: number(line, "not_made")?,
        });
        Ok(())
    }

    /// The recipe of a name that began and didn't end.
    fn open_recipe(&self, name: u32) -> Option<usize>
        ensures { IfSome result (λ r. r < vec_len self.now.recipes) }
    {
        let recipe = self.recipe_of(name)?;
        if recipe < self.recipes.len() && self.recipes[recipe].ended.is_none() {
            Some(recipe)
        } else {
            None
        }
    }

    /// The recipe of a name that began last.
    pub(crate) fn recipe_of(&self, name: u32) -> Option<usize> {
        let last = self.last.get(name as usize)?;
        (last.recipe as usize).checked_sub(1)
    }

    /// The name of the line's target, by its number.
    fn target(&mut self, alloc: Global, line: &Value) -> Result<u32, Fault> {
        const EXACT: &str = "target_base64";
        if line.get(EXACT).is_some() {
            let name = decoded(alloc, text(line, EXACT)?, EXACT)?;
            return self.numbered(alloc, name.as_slice());
        }
        self.numbered(alloc, text(line, "target")?.as_bytes())
    }

    fn numbered(&mut self, alloc: Global, name: &[u8]) -> Result<u32, Fault> {
        let number = self.names.numbered(alloc, name)?;
        if self.last.len() < self.names.len() {
            self.last.push(Last {
                recipe: 0,
                judged: 0,
            })?;
        }
        Ok(number)
    }

    /// The names that a target is made of, by their numbers.
    fn prerequisites(&mut self, alloc: Global, line: &Value) -> Result<Vec<u32>, Fault> {
        const EXACT: &str = "prerequisites_base64";
        const SHOWN: &str = "prerequisites";
        let is_exact = line.get(EXACT).is_some();
        let field = if is_exact { EXACT } else { SHOWN };
        let names = list(line, field)?;
        let mut row = Vec::with_capacity(alloc, names.len())?;
        for name in names {
            let Some(name) = name.as_str() else {
                return Err(Fault::Wrong(field));
            };
            let number = if is_exact {
                let name = decoded(alloc, name, field)?;
                self.numbered(alloc, name.as_slice())?
            } else {
                self.numbered(alloc, name.as_bytes())?
            };
            row.push(number)?;
        }
        Ok(row)
    }

    /// What was told of the run that was begun last.
    pub fn finish(self, alloc: Global, cut_off: Option<usize>) -> Result<Run, Fault>
        ensures number { IfOk result (λ run. run.number ≡ self.number) }
        ensures spans { IfOk result (λ run. vec_len run.spans ≡ vec_len run.recipes) }
        ensures rows { IfOk result (λ run. length run.prerequisites ≡ vec_len run.recipes) }
    {
        let spans = self.spans(alloc)?;
        let prerequisites = self.rows(alloc)?;
        let judged = self.made_of.len() as u64;
        let Self {
            number,
            words,
            workers,
            names,
            last: _,
            recipes,
            made_of: _,
            commits,
            up_to_date,
            end,
            time,
        } = self;
        Ok(Run {
            number,
            words,
            workers,
            names,
            recipes,
            spans,
            prerequisites,
            commits,
            judged,
            up_to_date,
            end,
            time,
            cut_off,
        })
    }
}

/// Texts with a blank between them.
fn joined(alloc: Global, texts: &[Value]) -> Result<String, Fault> {
    let mut all = String::new(alloc);
    for text in texts {
        let Some(text) = text.as_str() else {
            return Err(Fault::Wrong("words"));
        };
        if !all.is_empty() {
            all.push(' ')?;
        }
        all.push_str(text)?;
    }
    Ok(all)
}
