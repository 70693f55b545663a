//! The lines of the head, and of faulty parties.

ghost use Rattle.std.specs.Prelude.{◌≡◌, ◌++◌, ◌∷◌, [], IfOk, OnOk, codes, decimal, map, string_bytes};
ghost use Rattle.ab_text.specs.Heads.{abstract_line, checkpoint_line, plan_line, seed_line, version_of as least_version};
ghost use Rattle.ab_text.specs.Schedules.{faulty_line, script_of};
ghost use Rattle.ab_text.specs.Spelling.{head_lines, later_lines};
ghost use Rattle.ab_text.specs.Texts.{text_of};

use crate::head::{plan_text, scheme_text, service_text, version_text};
use crate::later_lines::version_of;
use crate::line_writing::add_line;
use crate::report::party_string;
use crate::schedule::Head;
use crate::version::Version;
use ab_num::{Cluster, OutOfMemory, Party};
use std::alloc::{AllocError, Global};

fn f_string(alloc: Global, f: u8) -> Result<String, AllocError>
    ensures { IfOk result (λ s. string_bytes s ≡ codes "f " ++ decimal f) }
{
    format!(in alloc; "f {f}")
}

fn clients_string(alloc: Global, clients: u16) -> Result<String, AllocError>
    ensures { IfOk result (λ s. string_bytes s ≡ codes "clients " ++ decimal clients) }
{
    format!(in alloc; "clients {clients}")
}

/// Adds the first four lines.
fn add_cluster(
    out: &mut Vec<u8>,
    alloc: Global,
    version: Version,
    cluster: &Cluster,
) -> Result<(), OutOfMemory>
    ensures { OnOk result (out.new.items ≡ out.old.items ++ text_of (abstract_line version ∷ (codes "f " ++ decimal cluster.now.f) ∷ plan_line cluster.now.plan ∷ (codes "clients " ++ decimal cluster.now.clients) ∷ [])) }
{
    let f = f_string(alloc, cluster.f)?;
    let clients = clients_string(alloc, cluster.clients)?;
    add_line(out, version_text(version).as_bytes())?;
    add_line(out, f.as_bytes())?;
    add_line(out, plan_text(cluster.plan).as_bytes())?;
    add_line(out, clients.as_bytes())?;
    Ok(())
}

fn checkpoint_string(alloc: Global, every: u16) -> Result<String, AllocError>
    ensures { IfOk result (λ s. string_bytes s ≡ checkpoint_line every) }
{
    format!(in alloc; "checkpoint {every}")
}

fn seed_string(alloc: Global, seed: &[u8; 32]) -> Result<String, AllocError>
    ensures { IfOk result (λ s. string_bytes s ≡ seed_line seed.now) }
{
    let digits = hex::encode(alloc, seed)?;
    format!(in alloc; "seed {digits}")
}

/// Adds the line that says after how many requests a checkpoint is due.
fn add_checkpoint(out: &mut Vec<u8>, alloc: Global, every: u16) -> Result<(), OutOfMemory>
    ensures { OnOk result (out.new.items ≡ out.old.items ++ text_of (checkpoint_line every ∷ [])) }
{
    let line = checkpoint_string(alloc, every)?;
    add_line(out, line.as_bytes())
}

/// Adds the line of the seed.
fn add_seed(out: &mut Vec<u8>, alloc: Global, seed: &[u8; 32]) -> Result<(), OutOfMemory>
    ensures { OnOk result (out.new.items ≡ out.old.items ++ text_of (seed_line seed.now ∷ [])) }
{
    let line = seed_string(alloc, seed)?;
    add_line(out, line.as_bytes())
}

/// Adds the lines that only later versions have.
fn add_later(
    out: &mut Vec<u8>,
    alloc: Global,
    version: Version,
    every: u16,
    seed: &[u8; 32],
) -> Result<(), OutOfMemory>
    ensures { OnOk result (out.new.items ≡ out.old.items ++ text_of (later_lines version every seed.now)) }
{
    match version {
        Version::One | Version::Two => Ok(()),
        Version::Three => add_checkpoint(out, alloc, every),
        Version::Four => {
            add_checkpoint(out, alloc, every)?;
            add_seed(out, alloc, seed)
        }
    }
}

/// Adds the lines of the head, the first with the least version that has all of it.
pub(crate) fn add_head(out: &mut Vec<u8>, alloc: Global, head: &Head) -> Result<(), OutOfMemory>
    ensures { OnOk result (out.new.items ≡ out.old.items ++ text_of (head_lines (least_version (script_of head.now [])) (script_of head.now []))) }
{
    let version = version_of(head);
    add_cluster(out, alloc, version, &head.cluster)?;
    add_line(out, service_text(head.service).as_bytes())?;
    add_line(out, scheme_text(head.lms).as_bytes())?;
    add_later(out, alloc, version, head.cluster.every, &head.seed)
}

/// The line of a faulty party and the number of its twins.
fn faulty_string(alloc: Global, party: Party, twins: u8) -> Result<String, AllocError>
    ensures { IfOk result (λ s. string_bytes s ≡ faulty_line (party, twins)) }
{
    let party = party_string(alloc, party)?;
    format!(in alloc; "faulty {party} {twins}")
}

/// Adds the line of a faulty party.
fn add_party(out: &mut Vec<u8>, alloc: Global, faulty: &(Party, u8)) -> Result<(), OutOfMemory>
    ensures { OnOk result (out.new.items ≡ out.old.items ++ text_of (faulty_line faulty.now ∷ [])) }
{
    let line = faulty_string(alloc, faulty.0, faulty.1)?;
    add_line(out, line.as_bytes())
}

/// Adds the lines of faulty parties.
pub(crate) fn add_faulty(
    out: &mut Vec<u8>,
    alloc: Global,
    faulty: &[(Party, u8)],
) -> Result<(), OutOfMemory>
    ensures { OnOk result (out.new.items ≡ out.old.items ++ text_of (map faulty_line faulty.now)) }
{
    for party in faulty {
        add_party(out, alloc, party)?;
    }
    Ok(())
}
