//! The lines of a key text that come before the keys.

ghost use Rattle.std.specs.Prelude.{◌≡◌, ◌≤◌, IfOk, length};
ghost use Rattle.ab_keys.specs.Keys.{is_party};
ghost use Rattle.ab_text.specs.Heads.{spelled_in};
ghost use Rattle.ab_text.specs.Lines.{lines_of};
ghost use Rattle.ab_key_text.specs.Lines.{Gives, line_at};
ghost use Rattle.ab_key_text.specs.Reading.{put_together, setting_at};
ghost use Rattle.ab_key_text.specs.Spelling.{keys_line};
ghost use Rattle.ab_key_text.specs.Versions.{key_versions};

use crate::fault::NodeFault;
use crate::keys::PartyKeys;
use crate::lines::{every_at, number_at, party_at, plan_at, scheme_at, service_at};
use crate::reading::Read;
use crate::secret::Secret;
use crate::shared::Shared;
use crate::version::{KeyVersion, head_count};
use ab_keys::is_party;
use ab_num::{Cluster, Party, Plan, Scheme, ServiceName};
use ab_scheme::PublicKey;
use ab_text::{cluster_of, next_line};
use std::marker::Model;

/// A party of a cluster, the cluster's service and how its replicas sign.
#[derive(Drop)]
pub(crate) struct KeyLines {
    me: Party,
    cluster: Cluster,
    service: ServiceName,
    lms: Scheme,
}

impl Model for KeyLines {
    ghost use Rattle.std.specs.Prelude.{IsTrue};
    ghost use Rattle.ab_keys.specs.Keys.{is_party as is_member};
    ghost use Rattle.ab_key_text.specs.Reading.{KeyLines as SettingValue};

    ghost Value = { SettingValue };

    ghost view = { λ s. record {
      me = s.me;
      f = s.cluster.f;
      clients = s.cluster.clients;
      plan = s.cluster.plan;
      every = s.cluster.every;
      service = s.service;
      lms = s.lms;
    } };

    ghost invariant = { λ s. IsTrue (is_member s.cluster.f s.cluster.clients s.me) };
}

/// The version that a first line names.
#[tactic(auto, unfolding(ab_text::specs::Heads::spelled_in))]
fn version_in(line: &[u8]) -> Option<KeyVersion>
    ensures { result ≡ spelled_in keys_line key_versions line.now }
{
    if line == b"keys 1".as_slice() {
        return Some(KeyVersion::One);
    }
    if line == b"keys 2".as_slice() {
        return Some(KeyVersion::Two);
    }
    if line == b"keys 3".as_slice() {
        return Some(KeyVersion::Three);
    }
    None
}

/// The version in line 1, and what comes after that line.
fn version_at(text: &[u8]) -> Result<(KeyVersion, &[u8]), NodeFault>
    ensures reads { Gives (λ p. (p.0, lines_of p.1.now)) result (line_at (spelled_in keys_line key_versions) 1 (lines_of text.now)) }
    ensures shorter { IfOk result (λ p. length p.1.now ≤ length text.now) }
{
    match next_line(text) {
        None => Err(NodeFault::NoEnd(1)),
        Some((line, rest)) => match version_in(line) {
            None => Err(NodeFault::BadLine(1)),
            Some(version) => Ok((version, rest)),
        },
    }
}

/// What the lines before the keys set up, and what comes after them.
#[tactic(auto, unfolding(crate::specs::Reading::setting_at))]
pub(crate) fn setting_of(text: &[u8]) -> Result<Read<'_, KeyLines>, NodeFault>
    ensures reads { Gives (λ p. record { value = p.value; next = p.next; rest = lines_of p.rest.now }) result (setting_at (lines_of text.now)) }
    ensures few { IfOk result (λ p. p.next ≤ 9) }
    ensures shorter { IfOk result (λ p. length p.rest.now ≤ length text.now) }
{
    let (version, rest) = version_at(text)?;
    let (me, rest) = party_at(rest, 2)?;
    let (f, rest) = number_at(rest, b"f ", 1, 2, 3)?;
    let (clients, rest) = number_at(rest, b"clients ", 1, 16, 4)?;
    let size = cluster_of(f as u8, clients as u16, Plan::Quorum, 0);
    if !is_party(&size, me) {
        return Err(NodeFault::BadLine(2));
    }
    let (plan, rest) = plan_at(rest, 5)?;
    let (service, rest) = service_at(rest, 6)?;
    let (lms, rest) = scheme_at(rest, version, 7)?;
    let (every, rest) = every_at(rest, version, plan)?;
    let cluster = cluster_of(f as u8, clients as u16, plan, every);
    Ok(Read {
        value: KeyLines {
            me,
            cluster,
            service,
            lms,
        },
        next: head_count(version) + 1,
        rest,
    })
}

impl KeyLines {
    /// The cluster.
    pub(crate) fn cluster(&self) -> &Cluster
        ensures f { result.now.f ≡ self.now.f }
        ensures clients { result.now.clients ≡ self.now.clients }
        ensures plan { result.now.plan ≡ self.now.plan }
    {
        &self.cluster
    }

    /// The party.
    pub(crate) fn me(&self) -> Party
        ensures { result ≡ self.now.me }
    {
        self.me
    }

    /// How the replicas sign.
    pub(crate) fn scheme(&self) -> Scheme
        ensures { result ≡ self.now.lms }
    {
        self.lms
    }

    /// The keys of the party that is set up so.
    pub(crate) fn with(
        self,
        secret: Option<Secret>,
        peers: Vec<Shared>,
        publics: Vec<PublicKey>,
    ) -> PartyKeys
        ensures { result ≡ put_together self secret peers.items publics.items }
    {
        let KeyLines {
            me,
            cluster,
            service,
            lms,
        } = self;
        PartyKeys {
            cluster,
            service,
            lms,
            me,
            secret,
            peers,
            publics,
        }
    }
}
