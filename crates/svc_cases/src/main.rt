//! What the gate runs, as standard input says line by line. `cases SUBJECT` runs each case of a list through the
//! program, over files in memory; it prints how many are as wanted, and where each other one first differs. Any other
//! line names a call; it prints whether the call answers correctly, even if memory is refused.
#![tactic(auto)]

mod case;
mod error;
mod folder;
mod images;
mod list;

use case::Case;
use csv::StringRecord;
use error::CaseError;
use folder::Folder;
use list::rows;
use std::rt::Files;
use std::sync::Wait;
use std::thread::Threads;
use std::{fs, str};
use svc_case_outcome::{Outcome, Part};
use svc_command::execute;
use svc_refused_memory::answer;

fn main(rt: HostRuntime) -> Result<(), CaseError> {
    for line in rt.lines(rt.alloc()) {
        let line = line?;
        match line.strip_prefix("cases ") {
            Some(subject) => run_all(&rt, subject)?,
            None => println!(rt; "{}", answer(&rt, &line))?,
        }
    }
    Ok(())
}

// Runs each case of a subject, and says how many are as wanted.
fn run_all<R: Files + Print + Threads + Wait + Sync + AllocGlobal>(
    rt: &R,
    subject: &str,
) -> Result<(), CaseError> {
    let cases = rows(rt, &format!(in rt.alloc(); "cases/{subject}.csv")?)?;
    let images = rows(rt, "images.csv")?;
    let right = count_right(rt, &cases, &images)?;
    let all = cases.len();
    if right == all {
        println!(rt; "{subject}: {all} cases ok")?;
    } else {
        println!(rt; "{subject}: {right} of {all} cases ok")?;
    }
    Ok(())
}

// Runs each of these cases. Answers how many are as wanted.
fn count_right<R: Files + Print + Threads + Wait + Sync + AllocGlobal>(
    rt: &R,
    cases: &[StringRecord],
    images: &[StringRecord],
) -> Result<usize, CaseError> {
    let mut right: usize = 0;
    for row in cases {
        let case = Case::of(row).ok_or(CaseError::List)?;
        if run_one(rt, &case, images)? {
            right = right.saturating_add(1);
        }
    }
    Ok(right)
}

// Runs a case, and says whether it is as wanted.
fn run_one<R: Files + Print + Threads + Wait + Sync + AllocGlobal>(
    rt: &R,
    case: &Case<'_>,
    images: &[StringRecord],
) -> Result<bool, CaseError> {
    let wanted = case.wanted(rt)?;
    let found = run(rt, case, images)?;
    tell(rt, case.name, &found, &wanted)
}

// Runs the program by the case's words.
fn run<R: Files + Threads + Wait + Sync + AllocGlobal>(
    rt: &R,
    case: &Case<'_>,
    images: &[StringRecord],
) -> Result<Outcome, CaseError> {
    let alloc = rt.alloc();
    let words = case.line(alloc)?;
    let mut files = Folder::new(rt, images);
    let mut out = Vec::new(alloc);
    let mut err = Vec::new(alloc);
    let status = execute(rt, alloc, &words, &mut files, &mut out, &mut err);
    Ok(Outcome {
        status,
        out,
        err,
        saved: files.saved(),
    })
}

// Whether a case is as wanted. If not, it reports the first part and line that aren't.
fn tell<R: Print>(
    rt: &R,
    name: &str,
    found: &Outcome,
    wanted: &Outcome,
) -> Result<bool, CaseError> {
    let Some(part) = found.first_other_part(wanted) else {
        return Ok(true);
    };
    match part {
        Part::Status => println!(rt; "{name}: status {} and not {}", found.status, wanted.status)?,
        Part::Out => tell_line(rt, name, "standard output", &found.out, &wanted.out)?,
        Part::Err => tell_line(rt, name, "standard error", &found.err, &wanted.err)?,
        Part::Saved => tell_line(rt, name, "the saved file", &found.saved, &wanted.saved)?,
    }
    Ok(false)
}

// Reports the first line in which two texts differ.
fn tell_line<R: Print>(
    rt: &R,
    name: &str,
    part: &str,
    found: &[u8],
    wanted: &[u8],
) -> Result<(), CaseError> {
    let found = str::from_utf8(found).unwrap_or("(no text)");
    let wanted = str::from_utf8(wanted).unwrap_or("(no text)");
    let (line, other) = first_other_lines(found, wanted);
    println!(rt; "{name}: {part} has '{line}' and not '{other}'")?;
    Ok(())
}

// The first lines in which two texts differ.
fn first_other_lines<'a>(found: &'a str, wanted: &'a str) -> (&'a str, &'a str) {
    let mut others = wanted.lines();
    for line in found.lines() {
        let other = others.next().unwrap_or("(its end)");
        if line != other {
            return (line, other);
        }
    }
    ("(its end)", others.next().unwrap_or("(its end)"))
}
