// What of a history is shown: some of its entries, and of these some of their bars and marks.

ghost use Rattle.std.specs.Prelude.{◌≡◌, ◌≤◌, IfOk, filter, length};
ghost use Rattle.svc_base.specs.declared.config.TheConstants.{MAX_EVENTS};
ghost use Rattle.svc_marks.specs.View.{bars_shown, end_shown, has_bar, has_mark, is_chosen, is_chosen_task};
ghost use Rattle.svc_marks.specs.View.{is_chosen_word, marks_shown, window_shown};

use crate::bars::{Bar, Window, bars_of};
use crate::marks::{Mark, marks_of};
use std::alloc::{AllocError, Global};
use svc_base::WordAddr;
use svc_history_laws::Entry;
use svc_span::Span;
use svc_task_runs::TaskRun;

/// Which bars and marks are shown: those of these units, tasks and words. Without a span, those of all are.
#[derive(Clone, Copy)]
pub struct Choice {
    /// The units.
    pub units: Option<Span>,
    /// The tasks, by their numbers.
    pub tasks: Option<Span>,
    /// The words. What has none, as a bar or a commit, is shown whatever they are.
    pub words: Option<Span>,
}

/// What of a history is shown.
#[derive(Clone, Copy)]
pub struct View {
    /// The first entry, counted from 0.
    pub from: u32,
    /// How many entries at most; without it, all from the first one on.
    pub count: Option<u32>,
    /// Which of their bars and marks.
    pub choice: Choice,
}

/// The bars and marks that are shown.
#[derive(Drop)]
pub struct Things {
    /// The entries.
    pub window: Window,
    /// The bars.
    pub bars: Vec<Bar>,
    /// The marks.
    pub marks: Vec<Mark>,
}

// The number is one of those chosen.
fn is_chosen(chosen: Option<Span>, number: u64) -> bool
    ensures { result ≡ is_chosen chosen number }
{
    match chosen {
        Some(span) => span.has(number),
        None => true,
    }
}

// The task is one of those chosen; none is, if there is no task.
fn is_chosen_task(chosen: Option<Span>, task: Option<TaskRun>) -> bool
    ensures { result ≡ is_chosen_task chosen task }
{
    match (chosen, task) {
        (None, _) => true,
        (Some(_), None) => false,
        (Some(span), Some(task)) => span.has(task.number),
    }
}

// The word is one of those chosen, if there is a word.
fn is_chosen_word(chosen: Option<Span>, word: Option<WordAddr>) -> bool
    ensures { result ≡ is_chosen_word chosen word }
{
    match word {
        Some(word) => is_chosen(chosen, u64::from(word.0)),
        None => true,
    }
}

impl Choice {
    // The bar is shown.
    fn has_bar(&self, bar: &Bar) -> bool
        ensures { result ≡ has_bar self.now bar.now }
    {
        let unit = u64::from(bar.task.unit.0);
        is_chosen(self.units, unit) && is_chosen(self.tasks, bar.task.number)
    }

    // The mark is shown.
    fn has_mark(&self, mark: &Mark) -> bool
        ensures { result ≡ has_mark self.now mark.now }
    {
        let unit = u64::from(mark.entry.unit.0);
        is_chosen(self.units, unit)
            && is_chosen_task(self.tasks, mark.task)
            && is_chosen_word(self.words, mark.entry.addr)
    }

    // Leaves the bars that are shown.
    fn retain_bars(&self, bars: &mut Vec<Bar>)
        ensures { bars.new.items ≡ filter (has_bar self.now) bars.old.items }
    {
        bars.retain(|bar| self.has_bar(bar));
    }

    // Leaves the marks that are shown.
    fn retain_marks(&self, marks: &mut Vec<Mark>)
        ensures { marks.new.items ≡ filter (has_mark self.now) marks.old.items }
    {
        marks.retain(|mark| self.has_mark(mark));
    }
}

impl View {
    /// The index of the entry after the last that may be shown, if there is such an end.
    pub fn end(&self) -> Option<u64>
        ensures { result ≡ end_shown self.now.from self.now.count }
    {
        match self.count {
            Some(count) => Some(u64::from(self.from) + u64::from(count)),
            None => None,
        }
    }

    // The entries that are shown of these.
    fn window(&self, entries: &[Entry]) -> Window
        ensures { result ≡ window_shown entries.now self.now }
    {
        let count = match self.count {
            Some(count) => u64::from(count),
            None => entries.len() as u64,
        };
        Window::of(entries, u64::from(self.from), count)
    }
}

/// The bars and marks of a history that are shown.
///
/// Errors: [`AllocError`], if memory runs out.
pub fn things_of(alloc: Global, entries: &[Entry], view: &View) -> Result<Things, AllocError>
    requires few { length entries.now ≤ MAX_EVENTS }
    ensures window { IfOk result (λ things. things.window ≡ window_shown entries.now view.now) }
    ensures bars { IfOk result (λ things. things.bars.items ≡ bars_shown entries.now view.now) }
    ensures marks { IfOk result (λ things. things.marks.items ≡ marks_shown entries.now view.now) }
{
    let window = view.window(entries);
    let mut bars = bars_of(alloc, entries, &window)?;
    let mut marks = marks_of(alloc, entries, &window, &bars)?;
    view.choice.retain_bars(&mut bars);
    view.choice.retain_marks(&mut marks);
    Ok(Things {
        window,
        bars,
        marks,
    })
}
