//! The jobs of a cluster.

ghost use Rattle.std.specs.Prelude.{◌≡◌, IfOk, IsTrue, map, string_bytes};
ghost use Rattle.ab_keys.specs.Keys.{is_party};
ghost use Rattle.ab_key_text.specs.Derived.{keys_of};
ghost use Rattle.ab_num.specs.declared.party.Party.{Party as TheParty};
ghost use Rattle.ab_cluster.specs.Gathering.{job_of};
ghost use Rattle.ab_cluster.specs.Jobs.{cluster_jobs, job_for, node_words};

use crate::gathering::ChildJob;
use ab_key_text::{Commands, PartyKeys, node_text};
use ab_num::{OutOfMemory, Party};
use ab_words::ClusterCommand;
use std::alloc::{AllocError, Global};

/// The words of each node.
fn node_words(alloc: Global, asked: &ClusterCommand) -> Result<Vec<String>, AllocError>
    ensures { IfOk result (λ words. map string_bytes words.items ≡ node_words asked.now) }
{
    let base = asked.base();
    let wait = asked.wait();
    let turns = asked.turns();
    let mut words = Vec::with_capacity(alloc, 7)?;
    words.push(String::from_str(alloc, "node")?)?;
    words.push(String::from_str(alloc, "--base")?)?;
    words.push(format!(in alloc; "{base}")?)?;
    words.push(String::from_str(alloc, "--wait")?)?;
    words.push(format!(in alloc; "{wait}")?)?;
    words.push(String::from_str(alloc, "--turns")?)?;
    words.push(format!(in alloc; "{turns}")?)?;
    Ok(words)
}

/// The keys of replica 0.
fn first_keys(alloc: Global, asked: &ClusterCommand) -> Result<PartyKeys, OutOfMemory>
    ensures { IfOk result (λ keys. keys ≡ keys_of asked.now.f 1 asked.now.plan asked.now.every asked.now.service asked.now.lms asked.now.seed (TheParty.Replica 0)) }
{
    PartyKeys::derive(
        alloc,
        asked.cluster(),
        asked.service(),
        asked.scheme(),
        asked.seed(),
        Party::Replica(0),
    )
}

/// The job of a party, by the keys of replica 0.
fn job_for(
    alloc: Global,
    asked: &ClusterCommand,
    commands: &Commands,
    first: &PartyKeys,
    p: Party,
) -> Result<ChildJob, OutOfMemory>
    requires first { first.now ≡ keys_of asked.now.f 1 asked.now.plan asked.now.every asked.now.service asked.now.lms asked.now.seed (TheParty.Replica 0) }
    requires member { IsTrue (is_party asked.now.f 1 p) }
    ensures { IfOk result (λ job. job_of job ≡ job_for asked.now (map (λ c. c.items) commands.now) p) }
{
    let keys = first.for_party(alloc, asked.seed(), p)?;
    let input = match p {
        Party::Replica(_) => node_text(alloc, &keys, &[])?,
        Party::Client(_) => node_text(alloc, &keys, commands.as_slice())?,
    };
    let words = node_words(alloc, asked)?;
    Ok(ChildJob { words, input })
}

/// The jobs of the cluster that is asked for, whose client makes these commands: replicas ascending, then the client.
pub fn cluster_jobs(
    alloc: Global,
    asked: &ClusterCommand,
    commands: &Commands,
) -> Result<Vec<ChildJob>, OutOfMemory>
    ensures { IfOk result (λ jobs. map job_of jobs.items ≡ cluster_jobs asked.now (map (λ c. c.items) commands.now)) }
{
    let first = first_keys(alloc, asked)?;
    let mut jobs = Vec::new(alloc);
    for r in 0..asked.cluster().replicas() {
        jobs.push(job_for(alloc, asked, commands, &first, Party::Replica(r))?)?;
    }
    jobs.push(job_for(alloc, asked, commands, &first, Party::Client(0))?)?;
    Ok(jobs)
}
