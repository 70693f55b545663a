//! The text of a party's keys.

ghost use Rattle.std.specs.Prelude.{◌≡◌, ◌+◌, ◌++◌, ◌∷◌, [], IfOk, OnOk, flat_map, string_bytes};
ghost use Rattle.ab_num.specs.declared.party.Party.TheVariants.{Replica};
ghost use Rattle.ab_key_text.specs.Spelling.{checkpoint_lines, cluster_lines, key_line, key_lines, keys_line, name_lines, peer_lines, public_lines, secret_line, secret_lines};
ghost use Rattle.ab_text.specs.Heads.{checkpoint_line};
ghost use Rattle.ab_text.specs.Texts.{text_of};

use crate::keys::PartyKeys;
use crate::secret::Secret;
use crate::shared::Shared;
use crate::version::{KeyVersion, key_version_of};
use ab_num::{OutOfMemory, Party};
use ab_scheme::PublicKey;
use ab_text::{party_string, plan_text, scheme_text, service_text};
use std::alloc::{AllocError, Global};

/// A line of a word, a party and a key.
fn key_string(alloc: Global, word: &str, p: Party, key: &[u8]) -> Result<String, AllocError>
    ensures { IfOk result (λ s. string_bytes s ≡ key_line word.now p key.now) }
{
    let party = party_string(alloc, p)?;
    let digits = hex::encode(alloc, key)?;
    format!(in alloc; "{word}{party} {digits}")
}

/// A line of a word, replica `r` and a key.
fn public_string(alloc: Global, word: &str, r: usize, key: &PublicKey) -> Result<String, AllocError>
    ensures { IfOk result (λ s. string_bytes s ≡ key_line word.now (Replica r) key.now) }
{
    let digits = hex::encode(alloc, key.as_slice())?;
    format!(in alloc; "{word}r{r} {digits}")
}

/// The line of a secret.
fn secret_string(alloc: Global, secret: &Secret) -> Result<String, AllocError>
    ensures { IfOk result (λ s. string_bytes s ≡ secret_line secret.now) }
{
    let id = hex::encode(alloc, &secret.id())?;
    let seed = hex::encode(alloc, &secret.seed())?;
    format!(in alloc; "secret {id} {seed}")
}

/// The line of checkpoints.
fn checkpoint_string(alloc: Global, every: u16) -> Result<String, AllocError>
    ensures { IfOk result (λ s. string_bytes s ≡ checkpoint_line every) }
{
    format!(in alloc; "checkpoint {every}")
}

/// The first line of a key text.
fn keys_text(version: KeyVersion) -> &'static str
    ensures { result.now ≡ keys_line version }
{
    match version {
        KeyVersion::One => "keys 1",
        KeyVersion::Two => "keys 2",
        KeyVersion::Three => "keys 3",
    }
}

/// Adds a line.
fn add_line(out: &mut Vec<u8>, line: &str) -> Result<(), OutOfMemory>
    ensures { OnOk result (out.new.items ≡ out.old.items ++ text_of (line.now ∷ [])) }
{
    out.extend_from_slice(line.as_bytes())?;
    out.push(b'\n')?;
    Ok(())
}

/// Adds the lines of a peer.
fn add_peer(out: &mut Vec<u8>, alloc: Global, peer: &Shared) -> Result<(), OutOfMemory>
    ensures { OnOk result (out.new.items ≡ out.old.items ++ text_of (peer_lines peer.now)) }
{
    let to = key_string(alloc, "out ", peer.party(), peer.to())?;
    let from = key_string(alloc, "in ", peer.party(), peer.from())?;
    add_line(out, to.as_str())?;
    add_line(out, from.as_str())
}

impl PartyKeys {
    /// Adds the first four lines.
    fn add_cluster(&self, out: &mut Vec<u8>, alloc: Global) -> Result<(), OutOfMemory>
        ensures { OnOk result (out.new.items ≡ out.old.items ++ text_of (cluster_lines self.now)) }
    {
        let me = party_string(alloc, self.me)?;
        let f = self.cluster.f;
        let clients = self.cluster.clients;
        let party = format!(in alloc; "party {me}")?;
        let faulty = format!(in alloc; "f {f}")?;
        let count = format!(in alloc; "clients {clients}")?;
        add_line(out, keys_text(key_version_of(self.cluster.every, self.lms)))?;
        add_line(out, party.as_str())?;
        add_line(out, faulty.as_str())?;
        add_line(out, count.as_str())?;
        Ok(())
    }

    /// Adds the line of checkpoints, if any are due.
    fn add_checkpoint(&self, out: &mut Vec<u8>, alloc: Global) -> Result<(), OutOfMemory>
        ensures { OnOk result (out.new.items ≡ out.old.items ++ text_of (checkpoint_lines self.now.every)) }
    {
        if self.cluster.every == 0 {
            return Ok(());
        }
        let line = checkpoint_string(alloc, self.cluster.every)?;
        add_line(out, line.as_str())
    }

    /// Adds the next three, and the line of checkpoints.
    fn add_names(&self, out: &mut Vec<u8>, alloc: Global) -> Result<(), OutOfMemory>
        ensures { OnOk result (out.new.items ≡ out.old.items ++ text_of (name_lines self.now)) }
    {
        add_line(out, plan_text(self.cluster.plan))?;
        add_line(out, service_text(self.service))?;
        add_line(out, scheme_text(self.lms))?;
        self.add_checkpoint(out, alloc)
    }

    /// Adds the line of a replica's secret.
    fn add_secret(&self, out: &mut Vec<u8>, alloc: Global) -> Result<(), OutOfMemory>
        ensures { OnOk result (out.new.items ≡ out.old.items ++ text_of (secret_lines self.now.secret)) }
    {
        match &self.secret {
            None => Ok(()),
            Some(secret) => {
                let line = secret_string(alloc, secret)?;
                add_line(out, line.as_str())
            }
        }
    }

    /// Adds the lines of the peers.
    fn add_peers(&self, out: &mut Vec<u8>, alloc: Global) -> Result<(), OutOfMemory>
        ensures { OnOk result (out.new.items ≡ out.old.items ++ text_of (flat_map peer_lines self.now.peers)) }
    {
        for peer in &self.peers {
            add_peer(out, alloc, peer)?;
        }
        Ok(())
    }

    /// Adds the lines of the public keys.
    fn add_publics(&self, out: &mut Vec<u8>, alloc: Global) -> Result<(), OutOfMemory>
        ensures { OnOk result (out.new.items ≡ out.old.items ++ text_of (public_lines 0 self.now.publics)) }
    {
        for (r, key) in self.publics.iter().enumerate() {
            let line = public_string(alloc, "public ", r, key)?;
            add_line(out, line.as_str())?;
        }
        Ok(())
    }

    /// The key text.
    pub fn text(&self, alloc: Global) -> Result<Vec<u8>, OutOfMemory>
        ensures { IfOk result (λ v. v.items ≡ text_of (key_lines self.now)) }
    {
        let mut out = Vec::new(alloc);
        self.add_cluster(&mut out, alloc)?;
        self.add_names(&mut out, alloc)?;
        self.add_secret(&mut out, alloc)?;
        self.add_peers(&mut out, alloc)?;
        self.add_publics(&mut out, alloc)?;
        Ok(out)
    }
}
