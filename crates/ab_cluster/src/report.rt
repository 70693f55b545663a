//! What is reported of a cluster.

ghost use Rattle.std.specs.Prelude.{◌≡◌, ◌++◌, ◌∷◌, [], IfOk, OnOk, is_none, map, string_bytes};
ghost use Rattle.std.specs.List.{list_any};
ghost use Rattle.std.specs.Option.{option_map};
ghost use Rattle.ab_text.specs.Texts.{text_of};
ghost use Rattle.ab_cluster.specs.Children.{ending};
ghost use Rattle.ab_cluster.specs.Gathering.{outcome_of};
ghost use Rattle.ab_cluster.specs.Reports.{child_line, conclusion_of, ended_at, is_ill, out_of, report_text};

use crate::gathering::Gathered;
use crate::spawner::Ended;
use ab_num::{Cluster, OutOfMemory, Party};
use ab_text::party_string;
use std::alloc::{AllocError, Global};

/// What became of the children of a cluster.
#[derive(Clone, Copy, Debug, PartialEq, Eq)]
pub enum Conclusion {
    /// Each ended with status 0.
    Well,
    /// It is known of each how it ended, and a status isn't 0.
    Ill,
    /// It isn't known of each job how its child ended, since a start or a wait failed.
    Unknown,
}

/// How the child of job `n` ended, if that is known.
fn ended_at(all: &[Gathered], n: usize) -> Option<&Ended>
    ensures { option_map (λ e. ending e.now) result ≡ ended_at (map outcome_of all.now) n }
{
    all.get(n)?.ended.as_ref()
}

/// The line of a party.
fn child_string(alloc: Global, p: Party, ended: Option<&Ended>) -> Result<String, AllocError>
    ensures { IfOk result (λ s. string_bytes s ≡ child_line p (option_map (λ e. ending e.now) ended.entry)) }
{
    let party = party_string(alloc, p)?;
    match ended {
        None => format!(in alloc; "child {party} none"),
        Some(ended) => {
            let status = ended.status;
            format!(in alloc; "child {party} {status}")
        }
    }
}

/// Adds the line of a party.
fn add_child(
    out: &mut Vec<u8>,
    alloc: Global,
    p: Party,
    ended: Option<&Ended>,
) -> Result<(), OutOfMemory>
    ensures { OnOk result (out.new.items ≡ out.old.items ++ text_of (child_line p (option_map (λ e. ending e.now) ended.entry) ∷ [])) }
{
    let line = child_string(alloc, p, ended)?;
    out.extend_from_slice(line.as_str().as_bytes())?;
    out.push(b'\n')?;
    Ok(())
}

/// Adds what a child wrote.
fn add_out(out: &mut Vec<u8>, ended: Option<&Ended>) -> Result<(), OutOfMemory>
    ensures { OnOk result (out.new.items ≡ out.old.items ++ out_of (option_map (λ e. ending e.now) ended.entry)) }
{
    match ended {
        None => Ok(()),
        Some(ended) => {
            out.extend_from_slice(ended.out.as_slice())?;
            Ok(())
        }
    }
}

/// The report of a cluster whose jobs were gathered: a line for each party, and then what the client wrote.
pub fn cluster_report(
    alloc: Global,
    cluster: &Cluster,
    all: &[Gathered],
) -> Result<Vec<u8>, OutOfMemory>
    ensures { IfOk result (λ v. v.items ≡ report_text cluster.now.f (map outcome_of all.now)) }
{
    let replicas = cluster.replicas();
    let mut out = Vec::new(alloc);
    for r in 0..replicas {
        add_child(
            &mut out,
            alloc,
            Party::Replica(r),
            ended_at(all, r as usize),
        )?;
    }
    let client = ended_at(all, replicas as usize);
    add_child(&mut out, alloc, Party::Client(0), client)?;
    add_out(&mut out, client)?;
    Ok(out)
}

/// Whether it isn't known of each job how its child ended.
fn has_unknown(all: &[Gathered]) -> bool
    ensures { result ≡ list_any (λ g. is_none g.ended) all.now }
{
    all.iter().any(|gathered| gathered.ended.is_none())
}

/// Whether a child ended with another status than 0.
fn is_ill(gathered: &Gathered) -> bool
    ensures { result ≡ is_ill (option_map ending gathered.now.ended) }
{
    match &gathered.ended {
        None => false,
        Some(ended) => ended.status != 0,
    }
}

/// Whether one of the children did.
fn has_ill(all: &[Gathered]) -> bool
    ensures { result ≡ list_any (λ g. is_ill (option_map ending g.ended)) all.now }
{
    all.iter().any(|gathered| is_ill(gathered))
}

/// What became of the children.
pub fn conclusion_of(all: &[Gathered]) -> Conclusion
    ensures { result ≡ conclusion_of (map outcome_of all.now) }
{
    if has_unknown(all) {
        return Conclusion::Unknown;
    }
    if has_ill(all) {
        return Conclusion::Ill;
    }
    Conclusion::Well
}
