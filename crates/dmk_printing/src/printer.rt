//! What a run prints. Several threads print, so a lock is taken for each line and for each block, and each ends with a flush:
//! through a writer with a buffer it is one write, as long as it fits.
ghost use Rattle.mk_eval.specs.Output.{World};

use crate::front::Front;
use crate::logging::{log_news, log_step};
use crate::queue::Due;
use crate::streams::Streams;
use crate::trusted::Trusted;
use bd_lists::Ended;
use dmk_log::Log;
use dmk_messages::{Cure, Message, print_fault, print_lines, print_note};
use dmk_status::{Shown, StatusLine, Terminal};
use jb_closing::RunFault;
use jb_host::{Hears, Stream};
use jb_recipe::{News, Say, Step};
use jb_turns::Turns;
use mk_eval::Includes;
use mk_rule_lines::Unmade;
use plain_text::Plain;
use std::alloc::Global;
use std::io::{self, Write};
use std::sync::{Condvar, Mutex, Wait};
use std::time::Duration;

/// Prints lines and blocks on one stream, and faults and notes on another. What can't be printed ends no run.
pub struct Printer<'a, R: Wait, O: Write + Drop, E: Write + Drop> {
    pub(crate) rt: &'a R,
    turns: &'a Turns,
    pub(crate) streams: Mutex<Streams<O, E>>,
    /// The one that the status line is drawn on.
    terminal: Option<Terminal>,
    /// Told once the run is over.
    over: Condvar,
    /// Where what recipes write is printed as it comes, one of them at a time.
    front: Option<Front>,
    pub(crate) log: Option<&'a Log<O>>,
}

impl<'a, R: Wait, O: Write + Drop, E: Write + Drop> Drop for Printer<'a, R, O, E> {
    fn drop(self) {
        let Printer {
            rt: _,
            turns: _,
            streams: _,
            terminal: _,
            over: _,
            front: _,
            log: _,
        } = self;
    }
}

impl<'a, R: Wait, O: Write + Drop, E: Write + Drop> Printer<'a, R, O, E> {
    /// What is shown of how far the run is stands on `out` in lines, and on `err` in a status line, where no recipe has the terminal alone.
    pub fn new(
        rt: &'a R,
        alloc: Global,
        turns: &'a Turns,
        out: O,
        err: E,
        shown: Shown,
        front: Option<Front>,
    ) -> Printer<'a, R, O, E> {
        let Shown {
            terminal,
            prints_ends,
        } = shown;
        let status = match terminal {
            Some(terminal) => Some(StatusLine::new(alloc, terminal.columns())),
            None => None,
        };
        Printer {
            rt,
            turns,
            streams: Mutex::new(Streams::new(alloc, out, err, status, prints_ends)),
            terminal,
            over: Condvar::new(),
            front,
            log: None,
        }
    }

    /// The two streams again, behind what is kept of recipes whose end nobody told.
    pub fn into_streams(self) -> (O, E) {
        let Printer {
            rt: _,
            turns: _,
            streams,
            terminal: _,
            over: _,
            front,
            log: _,
        } = self;
        let mut streams = streams.into_inner();
        if let Some(front) = front {
            front.print_rest(&mut streams);
        }
        streams.apart()
    }

    /// The run is over: its status line goes. Says once more which targets failed, where other lines stand behind that, and how many of
    /// those that were counted.
    pub fn repeat_failures(&self) {
        self.end();
        self.streams.lock(self.rt).repeat_failures();
    }

    /// The run is over.
    pub(crate) fn end(&self) {
        self.streams.lock(self.rt).end_status();
        self.over.notify_all();
    }

    /// Draws the status line anew each second until the run is over.
    pub(crate) fn keep_time(&self) {
        for _ in self.rt.forever() {
            let seen = self.over.notifications();
            if self.is_over() {
                return;
            }
            self.over.sleep(self.rt, seen, Duration::from_secs(1));
            let columns = self.columns_now();
            self.streams.lock(self.rt).tick(columns);
        }
    }

    /// How many columns the status line may take now. The terminal is asked only where it stands there.
    fn columns_now(&self) -> Option<usize> {
        let terminal = self.terminal?;
        if !self.streams.lock(self.rt).shows_status() {
            return None;
        }
        Some(terminal.columns())
    }

    /// Whether a status line is drawn.
    pub fn draws(&self) -> bool {
        self.terminal.is_some()
    }

    fn is_over(&self) -> bool {
        self.streams.lock(self.rt).is_over
    }

    /// A recipe begins or ends, whose output is printed as it comes.
    fn follow(&self, front: &Front, step: Step<'_>) {
        match step {
            Step::Begins(_) => front.begin(self.rt),
            Step::Ends(_, _) => {
                if let Some(number) = front.number(self.rt) {
                    let mut streams = self.streams.lock(self.rt);
                    front.end(self.rt, &mut *streams, number);
                }
            }
            _ => {}
        }
    }

    /// A line is run that writes on the two streams itself, behind all that its recipe wrote before.
    pub(crate) fn lend(&self) {
        let mut streams = self.streams.lock(self.rt);
        if let Some(front) = &self.front {
            if let Some(number) = front.number(self.rt) {
                front.print_all(self.rt, &mut *streams, number);
            }
        }
        streams.lend();
    }

    /// It has ended.
    pub(crate) fn take_back(&self) {
        self.streams.lock(self.rt).take_back();
    }

    /// Whether all lines and blocks went out.
    pub fn is_whole(&self) -> bool {
        self.streams.lock(self.rt).is_whole
    }

    /// A text in whole lines, before the run.
    pub fn text(&self, text: &[u8]) {
        self.streams.lock(self.rt).text(text);
    }

    /// One line with a fault that is met before anything is made.
    pub fn fault(&self, message: Message<'_>) {
        let mut streams = self.streams.lock(self.rt);
        streams.cure = Cure::of(message.fault);
        print_fault(&mut Plain::over(&mut streams.err), message);
        let _ = streams.err.flush();
    }

    /// What helps against the fault that was met before anything was made.
    pub fn cure(&self) -> Option<Cure> {
        self.streams.lock(self.rt).cure
    }

    /// One line with a fault that ended a run.
    pub fn stop(&self, fault: RunFault) {
        let mut streams = self.streams.lock(self.rt);
        let _ = writeln!(streams.err, "dmk: {fault}");
        let _ = streams.err.flush();
    }

    /// Says that no target is taken, since the file of one can't be put on the disk.
    pub fn not_on_disk(&self, error: io::Error) {
        let mut streams = self.streams.lock(self.rt);
        let _ = writeln!(
            streams.err,
            "dmk: cannot put the files of targets on the disk: {error}"
        );
        let _ = streams.err.flush();
    }

    /// One line about the state of this name, behind the program's name.
    fn of_state(&self, before: &str, state: &str, behind: &str) {
        let mut streams = self.streams.lock(self.rt);
        let _ = writeln!(
            Plain::over(&mut streams.err),
            "dmk: {before}{state}{behind}"
        );
        let _ = streams.err.flush();
    }

    /// Says that another run over the state is waited for.
    pub fn waiting(&self, state: &str) {
        self.of_state("note: waiting for another run over ", state, "");
    }

    /// Says that other runs aren't kept away from a file.
    pub fn not_locked(&self, file: &str, reason: io::Error) {
        let mut streams = self.streams.lock(self.rt);
        let _ = writeln!(
            Plain::over(&mut streams.err),
            "dmk: note: {file} is not locked: {reason}"
        );
        let _ = streams.err.flush();
    }

    /// Says what came of taking targets as they are.
    pub fn trusted(&self, state: &str, trusted: Trusted) {
        match trusted {
            Trusted::Unkept => self.of_state(
                "note: no target is taken as it is: no state is kept",
                "",
                "",
            ),
            Trusted::Known => self.of_state(
                "note: no target is taken as it is: ",
                state,
                " knows of targets already",
            ),
            Trusted::Taken(count) => self.taken(count),
        }
    }

    /// Says how many targets are taken as they are.
    fn taken(&self, count: usize) {
        let mut streams = self.streams.lock(self.rt);
        let _ = writeln!(streams.err, "dmk: note: targets taken as they are: {count}");
        let _ = streams.err.flush();
    }

    /// Says that the run which called this one has the state.
    pub fn held_above(&self, state: &str) {
        self.of_state("", state, " is held by the run that called this one");
    }

    /// Says what there is to note of the makefiles that were read, unless it was said. A note that there is no memory for isn't said.
    pub fn notes_of<I: Includes>(&self, alloc: Global, are_said: bool, includes: &mut I)
        ensures { (world : World) → I.allows includes.new world → I.allows includes.old world }
    {
        let notes = includes.take_notes(alloc);
        if are_said {
            return;
        }
        if let Ok(notes) = notes {
            let mut streams = self.streams.lock(self.rt);
            print_lines(&mut Plain::over(&mut streams.err), &notes);
        }
    }

    /// Says what became of a goal that was judged up to date.
    pub fn lost(&self, goal: &[u8], became: &str) {
        self.streams.lock(self.rt).note_goal(goal, became);
    }

    /// Says that a name has no file and that nothing makes it, as where a run is refused for it. Of each name it is said once.
    pub fn unmade(&self, alloc: Global, unmade: Unmade) {
        self.streams.lock(self.rt).unmade(alloc, unmade);
    }

    /// Says that soft edges are dropped.
    pub fn soft_edges_dropped(&self) {
        let mut streams = self.streams.lock(self.rt);
        print_note(&mut streams.err);
        let _ = streams.err.flush();
    }
}

impl<R: Wait, O: Write + Drop, E: Write + Drop> Say for Printer<'_, R, O, E> {
    fn line(&self, text: &[u8]) {
        if let Some(log) = self.log {
            if log.line(self.rt, text) {
                return;
            }
        }
        self.streams.lock(self.rt).line(text);
    }

    fn block(&self, ended: &[Ended]) {
        self.streams.lock(self.rt).block(ended);
    }

    fn tell(&self, news: News<'_>) {
        if let Some(log) = self.log {
            if log_news(self.rt, log, news) {
                return;
            }
        }
        self.streams.lock(self.rt).tell(news);
    }

    fn is_followed(&self) -> bool {
        self.draws() || self.streams.lock(self.rt).prints_ends
    }

    fn step(&self, step: Step<'_>) {
        if let Some(log) = self.log {
            log_step(self.rt, log, step);
        }
        if let Some(front) = &self.front {
            self.follow(front, step);
        }
        let mut streams = self.streams.lock(self.rt);
        // Between the lines of a recipe that has the terminal alone no status line is drawn either.
        match step {
            Step::Begins(_) if self.turns.is_alone() => streams.lend(),
            Step::Ends(_, _) if self.turns.is_alone() => streams.take_back(),
            _ => {}
        }
        streams.step(step);
    }
}

impl<R: Wait, O: Write + Drop, E: Write + Drop> Hears for Printer<'_, R, O, E> {
    fn number(&self) -> Option<u64> {
        self.front.as_ref()?.number(self.rt)
    }

    fn are_one(&self) -> bool {
        match &self.front {
            Some(front) => front.are_one,
            None => false,
        }
    }

    fn hear(&self, number: u64, stream: Stream, bytes: &[u8]) {
        let Some(front) = &self.front else {
            return;
        };
        match front.keep(self.rt, number, stream, bytes) {
            Due::Nothing => {}
            Due::Lines => {
                let mut streams = self.streams.lock(self.rt);
                front.print_lines(self.rt, &mut *streams);
            }
            Due::All => {
                let mut streams = self.streams.lock(self.rt);
                front.print_all(self.rt, &mut *streams, number);
                match stream {
                    Stream::Out => streams.written(bytes, b""),
                    Stream::Err => streams.written(b"", bytes),
                }
            }
        }
    }
}
