//! The text of a report.

ghost use Rattle.std.specs.Prelude.{◌≡◌, ◌++◌, IfOk, OnOk, string_bytes};
ghost use Rattle.std.specs.List.{flat_map};
ghost use Rattle.std.specs.Option.{option_to_list};
ghost use Rattle.ab_audit.specs.Kept.{finding, found_in, shown_if, shown_in};
ghost use Rattle.ab_audit.specs.Reports.{accusation_line, accusation_text, counts_text, finding_lines, report_text, why_line};

use crate::accusation::Accusation;
use crate::audit::Audit;
use crate::kept::Found;
use ab_mac::hash;
use ab_num::OutOfMemory;
use std::alloc::{AllocError, Global};

fn accusation_string(alloc: Global, accusation: &Accusation) -> Result<String, AllocError>
    ensures { IfOk result (λ s. string_bytes s ≡ accusation_line accusation.now) }
{
    match *accusation {
        Accusation::Abort { replica, instance } => {
            format!(in alloc; "accuse r{replica} abort {instance}\n")
        }
        Accusation::Prepare {
            replica,
            instance,
            view,
            slot,
        } => format!(in alloc; "accuse r{replica} prepare {instance} {view} {slot}\n"),
    }
}

fn why_string(alloc: Global, number: u64, text: &[u8]) -> Result<String, AllocError>
    ensures { IfOk result (λ s. string_bytes s ≡ why_line number text.now) }
{
    let digest = hex::encode(alloc, &hash(text))?;
    format!(in alloc; "why {number} {digest}\n")
}

fn counts_string(alloc: Global, messages: u64, bad: u64) -> Result<String, AllocError>
    ensures { IfOk result (λ s. string_bytes s ≡ counts_text messages bad) }
{
    format!(in alloc; "messages {messages}\nbad {bad}\nend\n")
}

/// Adds the lines of what was found.
fn write_found(alloc: Global, out: &mut Vec<u8>, found: &Found) -> Result<(), OutOfMemory>
    ensures { OnOk result (out.new.items ≡ out.old.items ++ finding_lines (finding found.now)) }
{
    let line = why_string(alloc, found.number, found.text.as_slice())?;
    out.extend_from_slice(line.as_bytes())?;
    out.extend_from_slice(found.words.as_slice())?;
    Ok(())
}

/// Adds the lines of what was found, if anything was.
fn write_if_found(
    alloc: Global,
    out: &mut Vec<u8>,
    found: Option<&Found>,
) -> Result<(), OutOfMemory>
    ensures { OnOk result (out.new.items ≡ out.old.items ++ flat_map finding_lines (option_to_list (found_in found.entry))) }
{
    match found {
        Some(found) => write_found(alloc, out, found),
        None => Ok(()),
    }
}

/// Adds the lines of what shows an accusation.
fn write_shown(
    alloc: Global,
    out: &mut Vec<u8>,
    audit: &Audit,
    about: &Accusation,
) -> Result<(), OutOfMemory>
    ensures { OnOk result (out.new.items ≡ out.old.items ++ flat_map finding_lines (shown_in audit.now.kept about.now)) }
{
    write_if_found(alloc, out, audit.first(about))?;
    write_if_found(alloc, out, audit.other(about))
}

/// Adds the lines of an accusation, and if asked `why`, of what shows it.
fn write_accusation(
    alloc: Global,
    out: &mut Vec<u8>,
    audit: &Audit,
    why: bool,
    accusation: &Accusation,
) -> Result<(), OutOfMemory>
    ensures { OnOk result (out.new.items ≡ out.old.items ++ accusation_text (shown_if why audit.now.kept) accusation.now) }
{
    let line = accusation_string(alloc, accusation)?;
    out.extend_from_slice(line.as_bytes())?;
    if why {
        return write_shown(alloc, out, audit, accusation);
    }
    Ok(())
}

/// The lines of these accusations, and how many messages there were and how many of them could not be read.
pub(crate) fn report_of(
    alloc: Global,
    audit: &Audit,
    why: bool,
    listed: &[Accusation],
    messages: u64,
    bad: u64,
) -> Result<Vec<u8>, OutOfMemory>
    ensures { IfOk result (λ v. v.items ≡ report_text (shown_if why audit.now.kept) listed.now messages bad) }
{
    let mut report = Vec::new(alloc);
    'listed: for accusation in listed {
        write_accusation(alloc, &mut report, audit, why, accusation)?;
    }
    let counts = counts_string(alloc, messages, bad)?;
    report.extend_from_slice(counts.as_bytes())?;
    Ok(report)
}
