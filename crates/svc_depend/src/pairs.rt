// The texts of the pairs of a task and another one that it needs, task by task.

ghost use Rattle.std.specs.Prelude.{◌≡◌, ◌≤◌, ◌<◌, ◌++◌, false, codes, map, OnOk, IfErr, IfOk, length};
ghost use Rattle.std.specs.Io.KnownBytes.{Appends, append_known};
ghost use Rattle.std.specs.List.{All, AllWithin};
ghost use Rattle.std.specs.List.Sorted.{IsNonDecreasingBy, IsPermutation};
ghost use Rattle.svc_core_laws.specs.Sequence.{ending_of, plain_seq};
ghost use Rattle.svc_plain.specs.Tasks.{tasks_run};
ghost use Rattle.svc_report.specs.Faults.{IsWriteFault};
ghost use Rattle.svc_names.specs.Given.{listed, word_text};
ghost use Rattle.svc_depend.specs.Links.{IsOrdered, links_text};
ghost use Rattle.svc_depend.specs.Pairs.{edge, label, more_text, pair_row, pair_text, pairs_begin, pairs_end, pairs_of};
ghost use Rattle.svc_depend.specs.Pairs.{pairs_text, words_text};
ghost use Rattle.svc_depend.specs.Tables.{text_over};

use crate::links::{Link, link_task};
use crate::run::MAX_TASKS;
use crate::tracker::Tracker;
use std::alloc::{AllocError, Global};
use std::io::Write;
use svc_core::Ending;
use svc_image::Image;
use svc_names::{Names, data_address};
use svc_report::ReportError;
use svc_text::{Piece, put, put_row, write_if_long, write_text};

// How many words an edge of the graph names.
const NAMED_WORDS: usize = 3;

/// How the pairs of a task and another one that it needs are told.
#[derive(Clone, Copy)]
pub enum PairForm<'a> {
    /// A row for each.
    Rows,
    /// A graph for Graphviz, with an edge for each, on which words stand by these names.
    Graph(Option<&'a Names>),
}

// The text before those of the pairs.
fn pairs_begin(form: PairForm<'_>) -> &'static [u8]
    ensures { result.now ≡ pairs_begin form.entry }
{
    match form {
        PairForm::Rows => b"task,on,distance,words\n",
        PairForm::Graph(_) => b"digraph depend {\n",
    }
}

// The text after them.
fn pairs_end(form: PairForm<'_>) -> &'static [u8]
    ensures { result.now ≡ pairs_end form.entry }
{
    match form {
        PairForm::Rows => b"",
        PairForm::Graph(_) => b"}\n",
    }
}

// Adds a word: its name, if names are given and it has one, or its number.
fn put_word(text: &mut Vec<u8>, names: Option<&Names>, word: u32) -> Result<(), AllocError>
    ensures { OnOk result (text.new.items ≡ text.old.items ++ word_text (listed names.entry) word) }
{
    let Some(names) = names else {
        return word.put(text);
    };
    match names.nearest(data_address(word)) {
        Some(near) => near.put(text),
        None => word.put(text),
    }
}

// Adds a word after a space.
fn put_next(text: &mut Vec<u8>, names: Option<&Names>, word: u32) -> Result<(), AllocError>
    ensures { OnOk result (text.new.items ≡ text.old.items ++ (codes " " ++ word_text (listed names.entry) word)) }
{
    put!(text; " ");
    put_word(text, names, word)
}

// Adds the words of links, with a space between two.
fn put_words(text: &mut Vec<u8>, names: Option<&Names>, links: &[Link]) -> Result<(), AllocError>
    requires { 0 < length links.now }
    ensures { OnOk result (text.new.items ≡ text.old.items
        ++ words_text (listed names.entry) (map (λ l. l.word) links.now)) }
{
    put_word(text, names, links[0].word)?;
    for link in &links[1..] {
        put_next(text, names, link.word)?;
    }
    Ok(())
}

// Adds how many more there are, if any.
fn put_more(text: &mut Vec<u8>, more: usize) -> Result<(), AllocError>
    ensures { OnOk result (text.new.items ≡ text.old.items ++ more_text more) }
{
    if more > 0 {
        put!(text; " +", more as u64);
    }
    Ok(())
}

// Adds the first words of links, and how many more there are.
fn put_label(text: &mut Vec<u8>, names: Option<&Names>, links: &[Link]) -> Result<(), AllocError>
    requires { 0 < length links.now }
    ensures { OnOk result (text.new.items ≡ text.old.items
        ++ label (listed names.entry) (map (λ l. l.word) links.now)) }
{
    let named = links.len().min(NAMED_WORDS);
    put_words(text, names, &links[..named])?;
    put_more(text, links.len() - named)
}

// Adds the edge from a task to another one, of which it needs the words of these links.
fn put_edge(
    text: &mut Vec<u8>,
    names: Option<&Names>,
    task: u32,
    on: u32,
    links: &[Link],
) -> Result<(), AllocError>
    requires { 0 < length links.now }
    ensures { OnOk result (text.new.items ≡ text.old.items
        ++ edge (listed names.entry) task on (map (λ l. l.word) links.now)) }
{
    put!(text; "  ", task, " -> ", on, " [label=\"");
    put_label(text, names, links)?;
    put!(text; "\"];\n");
    Ok(())
}

// Adds the row of these two tasks.
fn put_pair_row(text: &mut Vec<u8>, task: u32, on: u32, links: &[Link]) -> Result<(), AllocError>
    requires { on ≤ task }
    ensures { OnOk result (text.new.items ≡ text.old.items ++ pair_row task on (map (λ l. l.word) links.now)) }
{
    let told = [u64::from(on), u64::from(task - on), links.len() as u64];
    put_row(text, task, &told)
}

// Adds what is told of them.
fn put_pair(
    text: &mut Vec<u8>,
    form: PairForm<'_>,
    task: u32,
    on: u32,
    links: &[Link],
) -> Result<(), AllocError>
    requires some { 0 < length links.now }
    requires before { on ≤ task }
    ensures { OnOk result (text.new.items ≡ text.old.items ++ pair_text form.entry task on
        (map (λ l. l.word) links.now)) }
{
    match form {
        PairForm::Rows => put_pair_row(text, task, on, links),
        PairForm::Graph(names) => put_edge(text, names, task, on, links),
    }
}

// Where the links to tasks up to this one end, from one of them on.
fn group_end(links: &[Link], at: usize, on: u32) -> usize
    requires order { IsNonDecreasingBy (λ l. l.on) links.now }
    requires inside { at ≤ length links.now }
    ensures from { at ≤ result }
    ensures inside { result ≤ length links.now }
    ensures group { AllWithin (λ l. l.on ≤ on) links.now at result }
    ensures rest { AllWithin (λ l. on < l.on) links.now result (length links.now) }
{
    at + links[at..].partition_point(|link| link.on <= on)
}

// Adds what is told of a task by its links, which are in the order of the tasks that it needs.
fn put_links(
    text: &mut Vec<u8>,
    form: PairForm<'_>,
    task: u32,
    links: &[Link],
) -> Result<(), AllocError>
    requires order { IsNonDecreasingBy (λ l. l.on) links.now }
    requires before { All (λ l. l.on < task) links.now }
    ensures { OnOk result (text.new.items ≡ text.old.items ++ links_text form.entry task links.now) }
{
    let mut at = 0;
    while at < links.len() {
        let on = links[at].on;
        let end = group_end(links, at, on);
        put_pair(text, form, task, on, &links[at..end])?;
        at = end;
    }
    Ok(())
}

// Orders the links by the tasks that are needed, and those of one by their words.
fn order_links(links: &mut [Link])
    ensures same { IsPermutation links.old links.new }
    ensures order { IsOrdered links.new }
{
    links.sort_unstable_by_key(|link| (link.on, link.word));
}

// Writes what is told of the first `k` tasks, of which the last ones stay gathered.
fn write_rows<W: Write>(
    alloc: Global,
    image: &Image,
    k: u64,
    form: PairForm<'_>,
    text: &mut Vec<u8>,
    w: &mut W,
) -> Result<Ending, ReportError>
    requires { k ≤ MAX_TASKS }
    ensures rows { OnOk result (Appends (append_known (W.contents w.old) text.old.items)
        (append_known (W.contents w.new) text.new.items)
        (text_over (pairs_of form.entry image.now) (tasks_run image.now k))) }
    ensures ending { IfOk result (λ ending.
        ending ≡ ending_of false (plain_seq image.now k).stopped (plain_seq image.now k).due) }
    ensures err { IfErr result IsWriteFault }
{
    let mut due = Some(image.start());
    let mut stopped = None;
    let mut memory = Vec::from_slice(alloc, image.data_words())?;
    let mut tracker = Tracker::new(alloc, memory.len())?;
    let mut links = Vec::new(alloc);
    for _task in 0..k {
        let Some(entry) = due else {
            break;
        };
        links.clear();
        let end = link_task(
            image,
            entry,
            memory.as_mut_slice(),
            &mut tracker,
            &mut links,
        )?;
        order_links(&mut links);
        put_links(text, form, tracker.task, &links)?;
        write_if_long(text, w)?;
        tracker.next_task();
        due = end.next();
        stopped = end.stop();
    }
    Ok(Ending::of(false, stopped, due))
}

/// Follows the first `k` tasks of a program, or as many as there are, one after another on one flat memory, and writes
/// for each what it needs of which earlier ones: a header and rows, or a graph. It tells how the run ended, or which
/// task would be next.
///
/// Errors: [`ReportError::Memory`], [`ReportError::Write`].
pub fn write_pairs<W: Write>(
    alloc: Global,
    image: &Image,
    k: u64,
    form: PairForm<'_>,
    w: &mut W,
) -> Result<Ending, ReportError>
    requires { k ≤ MAX_TASKS }
    ensures ok { OnOk result (Appends (W.contents w.old) (W.contents w.new)
        (pairs_text form.entry image.now (tasks_run image.now k))) }
    ensures ending { IfOk result (λ ending.
        ending ≡ ending_of false (plain_seq image.now k).stopped (plain_seq image.now k).due) }
    ensures err { IfErr result IsWriteFault }
{
    let mut text = Vec::from_slice(alloc, pairs_begin(form))?;
    let ending = write_rows(alloc, image, k, form, &mut text, w)?;
    text.extend_from_slice(pairs_end(form))?;
    write_text(&text, w)?;
    Ok(ending)
}
