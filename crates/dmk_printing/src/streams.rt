//! The two streams that a run prints on, one of which may show a status line between what stays.

use crate::counts::{Counts, write_counts};
use crate::news::{is_failure, write_failure, write_fault, write_goal, write_news};
use bd_lists::Ended;
use dmk_messages::Cure;
use dmk_status::{Progress, StatusLine, write_end};
use jb_recipe::{News, Step};
use mk_names::Names;
use mk_rule_lines::{RuleFault, Unmade};
use plain_text::Plain;
use std::alloc::Global;
use std::io::{self, Write};

pub(crate) struct Streams<O: Write + Drop, E: Write + Drop> {
    out: O,
    pub(crate) err: E,
    /// All that was to go out on `out` did.
    pub(crate) is_whole: bool,
    /// The lines that say which targets failed, as they were told.
    failures: Vec<u8>,
    /// Something was printed behind the first of them.
    has_more: bool,
    /// What the parts of the run that have ended came to.
    counts: Counts,
    /// What was printed last on each of them ends its line.
    ends_out: bool,
    ends_err: bool,
    progress: Progress,
    /// Where standard error is a terminal that shows one.
    status: Option<StatusLine>,
    /// Each recipe that ends has a line on standard output.
    pub(crate) prints_ends: bool,
    /// How many lines that run now write on both themselves.
    lent: usize,
    /// The run is over.
    pub(crate) is_over: bool,
    /// It was told that a recipe wrote no report, and that job slots aren't used.
    told_unreported: bool,
    told_unused: bool,
    /// The names of which it was told that nothing makes them.
    unmade: Names,
    /// What helps against the fault that was told last.
    pub(crate) cure: Option<Cure>,
}

impl<O: Write + Drop, E: Write + Drop> Drop for Streams<O, E> {
    fn drop(self) {
        let Streams {
            out: _,
            err: _,
            is_whole: _,
            failures: _,
            has_more: _,
            counts: _,
            ends_out: _,
            ends_err: _,
            progress: _,
            status: _,
            prints_ends: _,
            lent: _,
            is_over: _,
            told_unreported: _,
            told_unused: _,
            unmade: _,
            cure: _,
        } = self;
    }
}

fn write_line<O: Write>(out: &mut O, text: &[u8]) -> io::Result<()> {
    out.write_all(text)?;
    out.write_all(b"\n")?;
    out.flush()
}

fn write_text<O: Write>(out: &mut O, text: &[u8]) -> io::Result<()> {
    out.write_all(text)?;
    out.flush()
}

fn write_out<O: Write>(out: &mut O, ended: &[Ended]) -> io::Result<()> {
    for one in ended {
        out.write_all(one.out.as_slice())?;
    }
    out.flush()
}

fn write_err<E: Write>(err: &mut E, ended: &[Ended]) -> io::Result<()> {
    for one in ended {
        err.write_all(one.err.as_slice())?;
    }
    err.flush()
}

// Whether what the lines of a recipe wrote is more than nothing.
fn has_output(ended: &[Ended]) -> bool {
    ended.iter().any(|one| !one.out.as_slice().is_empty() || !one.err.as_slice().is_empty())
}

// Whether a stream is at the front of a line, behind these bytes.
fn ends_line(before: bool, bytes: &[u8]) -> bool {
    match bytes.last() {
        Some(byte) => *byte == b'\n',
        None => before,
    }
}

impl<O: Write + Drop, E: Write + Drop> Streams<O, E> {
    pub(crate) fn new(
        alloc: Global,
        out: O,
        err: E,
        status: Option<StatusLine>,
        prints_ends: bool,
    ) -> Streams<O, E> {
        Streams {
            out,
            err,
            is_whole: true,
            failures: Vec::new(alloc),
            has_more: false,
            counts: Counts::none(),
            ends_out: true,
            ends_err: true,
            progress: Progress::none(),
            status,
            prints_ends,
            lent: 0,
            is_over: false,
            told_unreported: false,
            told_unused: false,
            unmade: Names::new(alloc),
            cure: None,
        }
    }

    /// The two streams again.
    pub(crate) fn apart(self) -> (O, E) {
        let Streams {
            out,
            err,
            is_whole: _,
            failures: _,
            has_more: _,
            counts: _,
            ends_out: _,
            ends_err: _,
            progress: _,
            status: _,
            prints_ends: _,
            lent: _,
            is_over: _,
            told_unreported: _,
            told_unused: _,
            unmade: _,
            cure: _,
        } = self;
        (out, err)
    }

    /// The status line gives way to what is printed next.
    fn make_way(&mut self) {
        if let Some(status) = &mut self.status {
            status.clear(&mut self.err);
        }
    }

    /// The status line is drawn. Behind a line that isn't ended it would stand in that one's place, so it would in that of what
    /// others write.
    fn draw_status(&mut self) {
        if self.lent > 0 || !(self.ends_out && self.ends_err) {
            return;
        }
        if let Some(status) = &mut self.status {
            status.draw(&mut self.err, self.progress);
        }
    }

    /// The run is a step further. That a recipe begins shows with its first line.
    pub(crate) fn step(&mut self, step: Step<'_>) {
        self.progress.go_on(step);
        if let Some(status) = &mut self.status {
            status.go_on(step);
        }
        match step {
            Step::Ends(target, _) if self.prints_ends => self.print_end(target),
            Step::Runs(_) | Step::Ends(_, _) => self.draw_status(),
            _ => {}
        }
    }

    /// Prints that the recipe of this target has ended.
    fn print_end(&mut self, target: &[u8]) {
        self.go_on();
        self.make_way();
        if write_end(&mut Plain::over(&mut self.out), self.progress, target).is_err() {
            self.is_whole = false;
        }
        self.ends_out = true;
        self.draw_status();
    }

    /// Whether the status line stands on the terminal.
    pub(crate) fn shows_status(&self) -> bool {
        match &self.status {
            Some(status) => status.is_drawn(),
            None => false,
        }
    }

    /// A second has passed, and the terminal has so many columns where that was asked.
    pub(crate) fn tick(&mut self, columns: Option<usize>) {
        if let Some(status) = &mut self.status {
            status.tick(columns);
        }
        self.draw_status();
    }

    /// The run is over.
    pub(crate) fn end_status(&mut self) {
        self.is_over = true;
        self.make_way();
        if let Some(status) = &mut self.status {
            status.end();
        }
    }

    /// A text that stands before all that a run prints.
    pub(crate) fn text(&mut self, text: &[u8]) {
        if write_text(&mut self.out, text).is_err() {
            self.is_whole = false;
        }
    }

    pub(crate) fn line(&mut self, text: &[u8]) {
        self.go_on();
        self.make_way();
        if write_line(&mut self.out, text).is_err() {
            self.is_whole = false;
        }
        self.ends_out = true;
        self.draw_status();
    }

    pub(crate) fn block(&mut self, ended: &[Ended]) {
        if has_output(ended) {
            self.go_on();
            self.make_way();
        }
        if write_out(&mut self.out, ended).is_err() {
            self.is_whole = false;
        }
        let _ = write_err(&mut self.err, ended);
        self.note_ends(ended);
        self.draw_status();
    }

    /// What a recipe wrote behind what was printed of it.
    pub(crate) fn written(&mut self, out: &[u8], err: &[u8]) {
        if out.is_empty() && err.is_empty() {
            return;
        }
        self.go_on();
        self.make_way();
        if !out.is_empty() && write_text(&mut self.out, out).is_err() {
            self.is_whole = false;
        }
        if !err.is_empty() {
            let _ = write_text(&mut self.err, err);
        }
        self.ends_out = ends_line(self.ends_out, out);
        self.ends_err = ends_line(self.ends_err, err);
        self.draw_status();
    }

    fn note_ends(&mut self, ended: &[Ended]) {
        for one in ended {
            self.ends_out = ends_line(self.ends_out, one.out.as_slice());
            self.ends_err = ends_line(self.ends_err, one.err.as_slice());
        }
    }

    /// A line is run that writes on the streams itself: whatever it writes, it counts as something that is printed.
    pub(crate) fn lend(&mut self) {
        self.go_on();
        self.make_way();
        self.lent = self.lent.saturating_add(1);
    }

    /// It has ended. What it wrote last is taken for a whole line.
    pub(crate) fn take_back(&mut self) {
        self.lent = self.lent.saturating_sub(1);
        self.draw_status();
    }

    /// Something else than a failure is printed.
    fn go_on(&mut self) {
        self.has_more = self.has_more || !self.failures.is_empty();
    }

    /// Whether these news were told of another target or part, and are told once.
    fn was_told(&mut self, news: News<'_>) -> bool {
        match news {
            News::Unreported { .. } => {
                let told = self.told_unreported;
                self.told_unreported = true;
                told
            }
            News::SlotsUnused => {
                let told = self.told_unused;
                self.told_unused = true;
                told
            }
            _ => false,
        }
    }

    /// Tells news. That a target failed is kept for the end of the run, as far as there is memory.
    pub(crate) fn tell(&mut self, news: News<'_>) {
        if self.was_told(news) {
            return;
        }
        self.make_way();
        write_news(&mut Plain::over(&mut self.err), news);
        if is_failure(news) {
            write_failure(&mut Plain::over(&mut self.failures), news);
        } else {
            self.go_on();
        }
        let _ = self.err.flush();
        self.ends_err = true;
        self.draw_status();
    }

    /// Whether a name wasn't told of as one that nothing makes. It was from then on, as far as there is memory.
    fn is_new(&mut self, alloc: Global, name: &[u8]) -> bool {
        self.unmade.mention(alloc, name).unwrap_or(true)
    }

    /// Says that nothing makes a name. It is kept for the end of the run, as a target that failed is.
    pub(crate) fn unmade(&mut self, alloc: Global, unmade: Unmade) {
        if !self.is_new(alloc, unmade.name.as_slice()) {
            drop(unmade);
            return;
        }
        let fault = RuleFault::NoRule(unmade);
        self.make_way();
        write_fault(&mut Plain::over(&mut self.err), &fault);
        write_fault(&mut Plain::over(&mut self.failures), &fault);
        let _ = self.err.flush();
        self.ends_err = true;
    }

    /// Says of a goal what became of it.
    pub(crate) fn note_goal(&mut self, goal: &[u8], became: &str) {
        self.go_on();
        self.make_way();
        write_goal(&mut Plain::over(&mut self.err), goal, became);
        let _ = self.err.flush();
        self.ends_err = true;
    }

    /// A part of the run has ended.
    pub(crate) fn count(&mut self, counts: Counts) {
        self.counts.add(counts);
    }

    /// Says once more which targets failed, unless that stands last, and how many did.
    pub(crate) fn repeat_failures(&mut self) {
        if self.has_more {
            let _ = self.err.write_all(&self.failures);
        }
        write_counts(&mut self.err, self.counts);
        let _ = self.err.flush();
    }
}
