// The bars of a picture: each task's, cut to the entries that are shown.

ghost use Rattle.std.specs.Prelude.{◌≡◌, ◌≤◌, ◌++◌, OnOk, IfOk, length};
ghost use Rattle.std.specs.Option.{option_to_list};
ghost use Rattle.svc_base.specs.declared.config.TheConstants.{MAX_EVENTS};
ghost use Rattle.svc_marks.specs.Bars.{bar_of, bars_of, runs, window_of};

use std::alloc::{AllocError, Global};
use svc_history_laws::Entry;
use svc_task_runs::{TaskRun, tasks_of};

/// The entries that a picture shows, counted from 0: from one index up to, but not including, another.
#[derive(Clone, Copy)]
pub struct Window {
    /// The first one.
    pub from: u64,
    /// The one after the last.
    pub to: u64,
}

impl Window {
    /// This many entries from an index on, as far as there are any.
    pub fn of(entries: &[Entry], from: u64, count: u64) -> Window
        ensures { result ≡ window_of entries.now from count }
    {
        let total = entries.len() as u64;
        let from = from.min(total);
        Window {
            from,
            to: from + count.min(total - from),
        }
    }
}

/// The bar of a task that is active at one of the entries shown. A bar that ends at the window's end goes on past it.
#[derive(Clone, Copy)]
pub struct Bar {
    /// The task.
    pub task: TaskRun,
    /// The first of its entries that is shown.
    pub start: u64,
    /// The entry that decided its fate, or the end of those shown.
    pub end: u64,
}

impl Bar {
    /// Whether the task runs on a unit while the entry at an index is accepted.
    pub fn runs(&self, unit: u8, at: u64) -> bool
        ensures { result ≡ runs unit at self.now }
    {
        self.task.unit.0 == unit && self.start <= at && at <= self.end
    }
}

// The bar of a task, if any of its entries is shown.
fn bar_of(window: &Window, task: &TaskRun) -> Option<Bar>
    ensures { result ≡ bar_of window.now task.now }
{
    let last = task.last.unwrap_or(window.to);
    if task.first >= window.to || last < window.from {
        return None;
    }
    let start = if task.first < window.from {
        window.from
    } else {
        task.first
    };
    let end = if window.to < last { window.to } else { last };
    Some(Bar {
        task: *task,
        start,
        end,
    })
}

// Adds a bar to a list, if there is one.
fn push_bar(bar: Option<Bar>, bars: &mut Vec<Bar>) -> Result<(), AllocError>
    ensures { OnOk result (bars.new.items ≡ bars.old.items ++ option_to_list bar) }
{
    if let Some(bar) = bar {
        bars.push(bar)?;
    }
    Ok(())
}

/// The bars of the tasks that are active at one of the entries shown; those with a decided fate come first.
///
/// Errors: [`AllocError`], if memory runs out.
pub fn bars_of(alloc: Global, entries: &[Entry], window: &Window) -> Result<Vec<Bar>, AllocError>
    requires few { length entries.now ≤ MAX_EVENTS }
    ensures { IfOk result (λ bars. bars.items ≡ bars_of entries.now window.now) }
{
    let tasks = tasks_of(alloc, entries)?;
    let mut bars = Vec::new(alloc);
    for task in &tasks {
        push_bar(bar_of(window, task), &mut bars)?;
    }
    Ok(bars)
}
