//! `assemble` and `list`: texts to an image, and an image to a text.

ghost use Rattle.std.specs.Prelude.{◌≡◌, ◌++◌, ◌⊎◌, IfOk, IfErr, IfSome, OnOk, option_map};
ghost use Rattle.svc_request.specs.declared.request.Request.TheVariants as request;
ghost use Rattle.svc_asm.specs.Programs.{IsProgramOf};
ghost use Rattle.svc_asm.specs.Texts.{behind_first};
ghost use Rattle.svc_image.specs.Image.{IsImage};
ghost use Rattle.svc_request.specs.declared.faults.Fault.TheVariants as fault;
ghost use Rattle.svc_request.specs.Faults.{IsReportFault};
ghost use Rattle.svc_request.specs.Held.{KeepsAllBut};
ghost use Rattle.svc_request.specs.Names.{IsOverItself};
ghost use Rattle.svc_answer.specs.Assembly.{IsTableOfText, Lists, all_held, text_held};
ghost use Rattle.svc_answer.specs.Requests.{IsAnswered};

use std::alloc::Global;
use std::io::{Read, Write};
use svc_answer::load::{load_image, load_names};
use svc_answer::output::print_text;
use svc_asm::{AssembleError, NEXT_TEXT, labels_of};
use svc_image::Image;
use svc_names::Names;
use svc_request::{Assembly, Fault, Files, Source};

/// Assembles the texts of files, one behind another, and makes their image the whole content of another file, and the
/// table of their names that of one more, if one is named. Nothing is printed.
///
/// Errors: a file that can't be read or written, the first fault of the texts, or lack of memory. Nothing
/// is changed before the image's file is written.
pub fn assemble<F: Files, O: Write>(
    alloc: Global,
    assembly: &Assembly<'_>,
    files: &mut F,
    out: &O,
) -> Result<u8, Fault>
    requires apart { IsOverItself (request.Assemble assembly.now) → ⊥ }
    ensures { IsAnswered O.contents (request.Assemble assembly.now)
        (F.held files.old) (F.held files.new) out.now out.now result }
{
    let _nothing_is_printed = out;
    let text = load_texts(alloc, assembly, files)?;
    let image = image_of(alloc, assembly, &text)?;
    let file = image.write(alloc)?;
    let table = table_of(alloc, assembly, &text)?;
    files.save(assembly.image, &file)?;
    save_table(assembly.names, &table, files)?;
    Ok(0)
}

// The image of the text that the files of an assembly make.
fn image_of(alloc: Global, assembly: &Assembly<'_>, text: &[u8]) -> Result<Image, Fault>
    ensures sound { IfOk result IsImage }
    ensures program { IfOk result (IsProgramOf text.now) }
{
    match svc_asm::assemble(alloc, text) {
        Ok(image) => {
            // what the type guarantees: it is an image
            let _start = image.start();
            Ok(image)
        }
        Err(error) => Err(assembly_fault(alloc, assembly, error)),
    }
}

// The table of the text's names, if a file is named for it; nothing otherwise.
fn table_of(alloc: Global, assembly: &Assembly<'_>, text: &[u8]) -> Result<Vec<u8>, Fault>
    ensures { IfOk result (λ table. IfSome assembly.now.names (λ _. IsTableOfText text.now table.items)) }
{
    match assembly.names {
        None => Ok(Vec::new(alloc)),
        Some(_) => names_table(alloc, assembly, text),
    }
}

// The table of the text's names.
fn names_table(alloc: Global, assembly: &Assembly<'_>, text: &[u8]) -> Result<Vec<u8>, Fault>
    ensures { IfOk result (λ table. IsTableOfText text.now table.items) }
{
    let labels = match labels_of(alloc, text) {
        Ok(labels) => labels,
        Err(error) => return Err(assembly_fault(alloc, assembly, error)),
    };
    let names = Names::of(alloc, labels)?;
    let mut table = Vec::new(alloc);
    names.put_table(&mut table)?;
    Ok(table)
}

// Makes a table the whole content of the file that is named for it, if one is.
fn save_table<F: Files>(named: Option<&str>, table: &[u8], files: &mut F) -> Result<(), Fault>
    ensures saved { IfOk result (λ _. IfSome named.entry
        (λ name. IfSome (F.held files.new name.now) (λ known. known ≡ table.now))) }
    ensures kept { KeepsAllBut (option_map (λ name. name.now) named.entry) (F.held files.old) (F.held files.new) }
    ensures err { IfErr result (λ f. f ≡ fault.File) }
{
    match named {
        None => Ok(()),
        Some(name) => Ok(files.save(name, table)?),
    }
}

// The most bytes that are assembled: those of all texts, with what stands between them.
const GREATEST_TEXT: u32 = 16_777_216;

// The texts of an assembly, one behind another.
fn load_texts<F: Files>(alloc: Global, assembly: &Assembly<'_>, files: &F) -> Result<Vec<u8>, Fault>
    ensures { IfOk result (λ bytes. IfSome (text_held (F.held files.now) assembly.now) (λ known. bytes.items ≡ known)) }
{
    let mut text = Vec::new(alloc);
    add_file(assembly.text, files, &mut text)?;
    add_others(&assembly.others, files, &mut text)?;
    Ok(text)
}

// Adds the bytes of files, each behind what stands between two texts.
fn add_others<F: Files>(names: &[&str], files: &F, text: &mut Vec<u8>) -> Result<(), Fault>
    ensures { OnOk result (IfSome (all_held (F.held files.now) names.now)
        (λ others. text.new.items ≡ text.old.items ++ behind_first others)) }
{
    for name in names {
        text.extend_from_slice(NEXT_TEXT)?;
        add_file(name, files, text)?;
    }
    Ok(())
}

// Adds the bytes of a file. No more is read than makes the text a byte longer than the longest.
fn add_file<F: Files>(name: &str, files: &F, text: &mut Vec<u8>) -> Result<(), Fault>
    ensures { OnOk result (IfSome (F.held files.now name.now) (λ known. text.new.items ≡ text.old.items ++ known)) }
{
    let reader = files.open(name)?;
    let room = u64::from(GREATEST_TEXT).saturating_sub(text.len() as u64);
    let mut front = reader.take(room + 1);
    match front.read_to_end(text) {
        Ok(_) if text.len() <= GREATEST_TEXT as usize => Ok(()),
        _ => Err(Fault::File),
    }
}

// How a fault of the texts is reported: after the name of the text in which it stands.
fn assembly_fault(alloc: Global, assembly: &Assembly<'_>, error: AssembleError) -> Fault {
    let told = match error {
        AssembleError::Memory => return Fault::File,
        AssembleError::Fault {
            text,
            line: _,
            column: _,
            found: _,
            expected: _,
        } => {
            let name = name_of_text(assembly, text);
            format!(in alloc; "{name}:{error}")
        }
    };
    match told {
        Ok(told) => Fault::Assembly(told),
        Err(_) => Fault::File,
    }
}

// The name of the text of this number, counted from 0. A text that is several by its own FS has the name of the last.
fn name_of_text<'a>(assembly: &Assembly<'a>, number: usize) -> &'a str {
    if number == 0 {
        return assembly.text;
    }
    let others = assembly.others.as_slice();
    match others.get(number - 1).or(others.last()) {
        Some(name) => *name,
        None => assembly.text,
    }
}

/// Prints an image as a text that assembles to it, with the names of the table that is named.
pub fn list<F: Files, O: Write>(
    alloc: Global,
    image: Source<'_>,
    named: Option<&str>,
    files: &F,
    out: &mut O,
) -> Result<u8, Fault>
    ensures { IsAnswered O.contents (request.List image.entry named.entry)
        (F.held files.now) (F.held files.now) out.old out.new result }
{
    let image = load_image(alloc, image, files)?;
    let names = load_names(alloc, named, files)?;
    list_image(alloc, &image, names.as_ref(), out)
}

// Prints an image as a text that assembles to it, with these names.
fn list_image<O: Write>(
    alloc: Global,
    image: &Image,
    names: Option<&Names>,
    out: &mut O,
) -> Result<u8, Fault>
    ensures listed { IfOk result (Lists names.entry image.now (O.contents out.old) (O.contents out.new)) }
    ensures fault { IfErr result (λ fault. IsReportFault fault ⊎ (out.new ≡ out.old)) }
{
    let text = svc_list::list(alloc, image, names)?;
    print_text(&text, out)?;
    Ok(0)
}
