//! `export`: a trace for another viewer.

ghost use Rattle.std.specs.Prelude.{◌≡◌, ◌⊎◌, ◌++◌, IfOk, IfErr, OnOk};
ghost use Rattle.svc_answer.specs.Exports.{exported_text, word_asked, words_asked};
ghost use Rattle.svc_report.specs.Faults.{IsMemoryFault};
ghost use Rattle.svc_history_laws.specs.Legal.{LegalHistory};
ghost use Rattle.svc_request.specs.declared.request.Request.TheVariants as request;
ghost use Rattle.svc_request.specs.Faults.{IsReportFault, TellsOfTrace};
ghost use Rattle.svc_answer.specs.Requests.{IsAnswered};

use crate::check::replay;
use std::alloc::{AllocError, Global};
use std::io::Write;
use svc_answer::load::load_traced;
use svc_base::Config;
use svc_export::export_text;
use svc_history::Entry;
use svc_image::Image;
use svc_report::ReportError;
use svc_request::{Exported, Fault, Files, Traced};
use svc_span::{Span, is_asked};

/// Replays a trace, and saves it for another viewer. Nothing is printed.
pub fn export<F: Files, O: Write>(
    alloc: Global,
    traced: Traced<'_>,
    exported: Exported<'_>,
    files: &mut F,
    out: &O,
) -> Result<u8, Fault>
    ensures { IsAnswered O.contents (request.Export traced.entry exported.entry)
        (F.held files.old) (F.held files.new) out.now out.now result }
{
    let _nothing_is_printed = out;
    let (image, entries) = load_traced(alloc, traced, files)?;
    let text = export_entries(alloc, image, traced.config, &entries, exported)?;
    files.save(exported.file, &text)?;
    Ok(0)
}

// Replays the entries, and makes their text for the viewer.
//
// Errors: the first fault of the entries; lack of memory.
fn export_entries(
    alloc: Global,
    image: Image,
    config: Config,
    entries: &[Entry],
    exported: Exported<'_>,
) -> Result<Vec<u8>, Fault>
    ensures legal { IfOk result (λ _. LegalHistory image config entries.now) }
    ensures text { IfOk result (λ text. text.items ≡ exported_text exported.entry image config entries.now) }
    ensures fault { IfErr result (λ fault. IsReportFault fault ⊎ TellsOfTrace image config entries.now fault) }
{
    let recorder = replay(alloc, image, config, entries)?;
    let words = words_asked(alloc, recorder.machine().image(), exported.words)?;
    let text = export_text(
        alloc,
        entries,
        u32::from(config.units),
        exported.format,
        &words,
    )?;
    Ok(text)
}

// The words of the image that are asked for, in their order.
fn words_asked(alloc: Global, image: &Image, asked: Option<Span>) -> Result<Vec<u32>, ReportError>
    ensures words { IfOk result (λ words. words.items ≡ words_asked image.now asked) }
    ensures err { IfErr result IsMemoryFault }
{
    let mut words = Vec::new(alloc);
    for word in 0..image.data_words().len() as u32 {
        push_asked(asked, word, &mut words)?;
    }
    Ok(words)
}

// Adds a word, if it is asked for.
fn push_asked(asked: Option<Span>, word: u32, words: &mut Vec<u32>) -> Result<(), AllocError>
    ensures { OnOk result (words.new.items ≡ words.old.items ++ word_asked asked word) }
{
    if is_asked(asked, word) {
        words.push(word)?;
    }
    Ok(())
}
