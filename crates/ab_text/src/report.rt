//! The text of a report.

ghost use Rattle.std.specs.Prelude.{◌≡◌, ◌++◌, OnOk, OnErr, IfOk, codes, string_bytes};
ghost use Rattle.std.specs.List.{flat_map};
ghost use Rattle.ab_text.specs.Cores.{party_text};
ghost use Rattle.ab_text.specs.Reports.{entry_text, next_entry_text, entries_text, list_text, cause_text, breach_text, refused_line, cert_line, init_line, invoked_line, commit_front, spent_line, line_text, log_line, premise_text, broken_line, end_text};

use crate::line::{Breach, Line, OpenCause, Premise};
use ab_num::{OutOfMemory, Party};
use std::alloc::{AllocError, Global};

/// Adds a text.
fn add(out: &mut Vec<u8>, text: &[u8]) -> Result<(), OutOfMemory>
    ensures ok { OnOk result (out.new.items ≡ out.old.items ++ text.now) }
    ensures err { OnErr result (out.new.items ≡ out.old.items) }
{
    out.extend_from_slice(text)?;
    Ok(())
}

/// The text of a party.
pub fn party_string(alloc: Global, party: Party) -> Result<String, AllocError>
    ensures { IfOk result (λ s. string_bytes s ≡ party_text party) }
{
    match party {
        Party::Replica(r) => format!(in alloc; "r{r}"),
        Party::Client(c) => format!(in alloc; "c{c}"),
    }
}

fn cause_name(cause: OpenCause) -> &'static str
    ensures { result.now ≡ cause_text cause }
{
    match cause {
        OpenCause::Bad => "bad",
        OpenCause::Kind => "kind",
        OpenCause::Tag => "tag",
    }
}

fn breach_name(breach: Breach) -> &'static str
    ensures { result.now ≡ breach_text breach }
{
    match breach {
        Breach::Faulty => "faulty",
        Breach::Forged => "forged",
        Breach::Collision => "collision",
    }
}

fn entry_string(alloc: Global, client: u16, stamp: u64) -> Result<String, AllocError>
    ensures { IfOk result (λ s. string_bytes s ≡ entry_text (client, stamp)) }
{
    format!(in alloc; "c{client}.{stamp}")
}

fn next_entry_string(alloc: Global, client: u16, stamp: u64) -> Result<String, AllocError>
    ensures { IfOk result (λ s. string_bytes s ≡ next_entry_text (client, stamp)) }
{
    format!(in alloc; ",c{client}.{stamp}")
}

/// The entries of a history.
fn entries_string(alloc: Global, entries: &[(u16, u64)]) -> Result<String, AllocError>
    ensures { IfOk result (λ s. string_bytes s ≡ entries_text entries.now) }
{
    match entries {
        [] => String::from_str(alloc, "-"),
        [first, rest @ ..] => joined(alloc, first, rest),
    }
}

/// A first entry and those after it.
fn joined(alloc: Global, first: &(u16, u64), rest: &[(u16, u64)]) -> Result<String, AllocError>
    ensures { IfOk result (λ s. string_bytes s ≡ entry_text first.now ++ flat_map next_entry_text rest.now) }
{
    let mut text = entry_string(alloc, first.0, first.1)?;
    for entry in rest {
        let more = next_entry_string(alloc, entry.0, entry.1)?;
        text.push_str(more.as_str())?;
    }
    Ok(text)
}

/// The entries of a list that has forgotten its first `start` ones.
fn list_string(alloc: Global, start: u16, entries: &[(u16, u64)]) -> Result<String, AllocError>
    ensures { IfOk result (λ s. string_bytes s ≡ list_text start entries.now) }
{
    let entries = entries_string(alloc, entries)?;
    if start == 0 {
        return Ok(entries);
    }
    format!(in alloc; "{start}:{entries}")
}

fn refused_string(
    alloc: Global,
    event: u32,
    party: Party,
    cause: OpenCause,
) -> Result<String, AllocError>
    ensures { IfOk result (λ s. string_bytes s ≡ refused_line event party cause) }
{
    let party = party_string(alloc, party)?;
    let cause = cause_name(cause);
    format!(in alloc; "refused {event} {party} {cause}\n")
}

fn cert_string(
    alloc: Global,
    event: u32,
    party: Party,
    instance: u32,
    start: u16,
    entries: &[(u16, u64)],
) -> Result<String, AllocError>
    ensures { IfOk result (λ s. string_bytes s ≡ cert_line event party instance start entries.now) }
{
    let party = party_string(alloc, party)?;
    let entries = list_string(alloc, start, entries)?;
    format!(in alloc; "cert {event} {party} {instance} {entries}\n")
}

fn init_string(
    alloc: Global,
    event: u32,
    replica: u8,
    instance: u32,
    start: u16,
    entries: &[(u16, u64)],
) -> Result<String, AllocError>
    ensures { IfOk result (λ s. string_bytes s ≡ init_line event replica instance start entries.now) }
{
    let entries = list_string(alloc, start, entries)?;
    format!(in alloc; "init {event} r{replica} {instance} {entries}\n")
}

fn invoked_string(
    alloc: Global,
    event: u32,
    client: u16,
    instance: u32,
    stamp: u64,
) -> Result<String, AllocError>
    ensures { IfOk result (λ s. string_bytes s ≡ invoked_line event client instance stamp) }
{
    format!(in alloc; "invoked {event} c{client} {instance} {stamp}\n")
}

fn commit_string(
    alloc: Global,
    event: u32,
    client: u16,
    instance: u32,
    stamp: u64,
    n: u16,
) -> Result<String, AllocError>
    ensures { IfOk result (λ s. string_bytes s ≡ commit_front event client instance stamp n) }
{
    format!(in alloc; "commit {event} c{client} {instance} {stamp} {n} ")
}

fn spent_string(alloc: Global, event: u32, replica: u8) -> Result<String, AllocError>
    ensures { IfOk result (λ s. string_bytes s ≡ spent_line event replica) }
{
    format!(in alloc; "spent {event} r{replica}\n")
}

fn log_string(
    alloc: Global,
    replica: u8,
    instance: u32,
    start: u16,
    entries: &[(u16, u64)],
) -> Result<String, AllocError>
    ensures { IfOk result (λ s. string_bytes s ≡ log_line replica instance start entries.now) }
{
    let entries = list_string(alloc, start, entries)?;
    format!(in alloc; "log r{replica} {instance} {entries}\n")
}

fn broken_string(
    alloc: Global,
    event: u32,
    breach: Breach,
    party: Party,
) -> Result<String, AllocError>
    ensures { IfOk result (λ s. string_bytes s ≡ broken_line event breach party) }
{
    let party = party_string(alloc, party)?;
    let breach = breach_name(breach);
    format!(in alloc; "premise broken {event} {breach} {party}\n")
}

fn end_string(alloc: Global, events: u32, packets: u64) -> Result<String, AllocError>
    ensures { IfOk result (λ s. string_bytes s ≡ end_text events packets) }
{
    format!(in alloc; "end {events} {packets}\n")
}

/// The line of a commit. Its reply's bytes stand as they are.
fn commit_bytes(alloc: Global, front: &str, reply: &[u8]) -> Result<Vec<u8>, AllocError>
    ensures { IfOk result (λ v. v.items ≡ front.now ++ (reply.now ++ codes "\n")) }
{
    let mut line = Vec::from_slice(alloc, front.as_bytes())?;
    line.extend_from_slice(reply)?;
    line.extend_from_slice(b"\n")?;
    Ok(line)
}

/// Adds the line of a commit.
fn write_commit(
    alloc: Global,
    out: &mut Vec<u8>,
    front: &str,
    reply: &[u8],
) -> Result<(), OutOfMemory>
    ensures ok { OnOk result (out.new.items ≡ out.old.items ++ (front.now ++ (reply.now ++ codes "\n"))) }
    ensures err { OnErr result (out.new.items ≡ out.old.items) }
{
    let line = commit_bytes(alloc, front, reply)?;
    add(out, line.as_slice())
}

/// Adds a line. Where memory is refused `out` is as before.
pub fn write_seen(alloc: Global, out: &mut Vec<u8>, line: &Line) -> Result<(), OutOfMemory>
    ensures ok { OnOk result (out.new.items ≡ out.old.items ++ line_text line.now) }
    ensures err { OnErr result (out.new.items ≡ out.old.items) }
{
    match line {
        Line::Refused {
            event,
            party,
            cause,
        } => {
            let text = refused_string(alloc, *event, *party, *cause)?;
            add(out, text.as_bytes())
        }
        Line::Cert {
            event,
            party,
            instance,
            start,
            entries,
        } => {
            let text = cert_string(alloc, *event, *party, *instance, *start, entries.as_slice())?;
            add(out, text.as_bytes())
        }
        Line::Init {
            event,
            replica,
            instance,
            start,
            entries,
        } => {
            let text = init_string(
                alloc,
                *event,
                *replica,
                *instance,
                *start,
                entries.as_slice(),
            )?;
            add(out, text.as_bytes())
        }
        Line::Invoked {
            event,
            client,
            instance,
            stamp,
        } => {
            let text = invoked_string(alloc, *event, *client, *instance, *stamp)?;
            add(out, text.as_bytes())
        }
        Line::Commit {
            event,
            client,
            instance,
            stamp,
            n,
            reply,
        } => {
            let front = commit_string(alloc, *event, *client, *instance, *stamp, *n)?;
            write_commit(alloc, out, front.as_str(), reply.as_slice())
        }
        Line::Spent { event, replica } => {
            let text = spent_string(alloc, *event, *replica)?;
            add(out, text.as_bytes())
        }
    }
}

/// Adds the line of a replica's instance and log, of which it has forgotten the first `start` entries. Where memory is refused `out` is as before.
pub fn write_log(
    alloc: Global,
    out: &mut Vec<u8>,
    replica: u8,
    instance: u32,
    start: u16,
    entries: &[(u16, u64)],
) -> Result<(), OutOfMemory>
    ensures ok { OnOk result (out.new.items ≡ out.old.items ++ log_line replica instance start entries.now) }
    ensures err { OnErr result (out.new.items ≡ out.old.items) }
{
    let text = log_string(alloc, replica, instance, start, entries)?;
    add(out, text.as_bytes())
}

/// Adds the line of the premises. Where memory is refused `out` is as before.
pub fn write_premise(alloc: Global, out: &mut Vec<u8>, premise: &Premise) -> Result<(), OutOfMemory>
    ensures ok { OnOk result (out.new.items ≡ out.old.items ++ premise_text premise.now) }
    ensures err { OnErr result (out.new.items ≡ out.old.items) }
{
    match premise {
        Premise::Held => add(out, b"premise held\n"),
        Premise::Broken {
            event,
            breach,
            party,
        } => {
            let text = broken_string(alloc, *event, *breach, *party)?;
            add(out, text.as_bytes())
        }
    }
}

/// Adds the last line, of how many events and packets there were. Where memory is refused `out` is as before.
pub fn write_end(
    alloc: Global,
    out: &mut Vec<u8>,
    events: u32,
    packets: u64,
) -> Result<(), OutOfMemory>
    ensures ok { OnOk result (out.new.items ≡ out.old.items ++ end_text events packets) }
    ensures err { OnErr result (out.new.items ≡ out.old.items) }
{
    let text = end_string(alloc, events, packets)?;
    add(out, text.as_bytes())
}
