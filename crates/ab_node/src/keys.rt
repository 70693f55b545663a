//! What a party has to open, sign and seal by.

ghost use Rattle.std.specs.Prelude.{◌≡◌, IfOk, MatchOption, None, Some, map};
ghost use Rattle.std.specs.Option.{option_map};
ghost use Rattle.ab_key_text.specs.Keys.{IsWhole};
ghost use Rattle.ab_sign.specs.Signers.{leaves_of};
ghost use Rattle.ab_sign.specs.declared.key.SignKey.TheVariants.{Public};
ghost use Rattle.ab_wire.specs.Views.{IsReceived, message};
ghost use Rattle.ab_node.specs.Keys.{credentials_in, opened, own_key, with_own};

use ab_key_text::{PartyKeys, Secret};
use ab_keys::KeyRing;
use ab_num::{OutOfMemory, Party, Scheme};
use ab_party::Credentials;
use ab_scheme::{PublicKey, SecretKey};
use ab_sign::{SignKey, Signers};
use ab_wire::MsgRef;
use std::alloc::Global;
use std::marker::Model;

/// A party's key ring, and the signature keys of the replicas: of its own a replica has the secret, of
/// the others each party has the public ones. And after how many requests a checkpoint is due.
#[derive(Drop)]
pub(crate) struct Keys {
    ring: KeyRing,
    signers: Signers,
    every: u16,
}

impl Model for Keys {
    ghost use Rattle.ab_party.specs.Credentials.{Credentials as TheCredentials};

    ghost Value = { TheCredentials };

    ghost view = { λ k. record { ring = k.ring; keys = k.signers; every = k.every } };
}

/// A replica's own key.
fn own_key(lms: Scheme, secret: &Secret) -> SignKey
    ensures { result ≡ own_key lms secret.now }
{
    SignKey::Secret(SecretKey::new(lms, secret.id(), secret.seed()))
}

/// The public keys of the replicas.
fn public_keys(alloc: Global, publics: &[PublicKey]) -> Result<Vec<SignKey>, OutOfMemory>
    ensures { IfOk result (λ v. v.items ≡ map Public publics.now) }
{
    let mut keys = Vec::with_capacity(alloc, publics.len())?;
    for public in publics {
        keys.push(SignKey::Public(*public))?;
    }
    Ok(keys)
}

/// The signature keys as the party has them.
fn sign_keys(alloc: Global, keys: &PartyKeys) -> Result<Vec<SignKey>, OutOfMemory>
    requires { IsWhole keys.now }
    ensures { IfOk result (λ v. v.items ≡ with_own keys.now.me (option_map (own_key keys.now.lms) keys.now.secret) (map Public keys.now.publics)) }
{
    let mut list = public_keys(alloc, keys.publics())?;
    match keys.me() {
        Party::Client(_) => Ok(list),
        Party::Replica(r) => match keys.secret() {
            Some(secret) => {
                list[usize::from(r)] = own_key(keys.scheme(), secret);
                Ok(list)
            }
            None => Ok(list),
        },
    }
}

impl Keys {
    /// The keys that a text of a party's keys gives.
    pub(crate) fn of(alloc: Global, keys: &PartyKeys) -> Result<Keys, OutOfMemory>
        requires { IsWhole keys.now }
        ensures { IfOk result (λ c. c ≡ credentials_in keys.now) }
    {
        let ring = keys.ring(alloc)?;
        let signers = Signers::of(alloc, sign_keys(alloc, keys)?);
        Ok(Keys {
            ring,
            signers,
            every: keys.cluster().every,
        })
    }

    /// How many signatures replica `r` can make by them.
    pub(crate) fn leaves(&self, r: u8) -> u64
        ensures { result ≡ leaves_of self.now.keys r }
    {
        self.signers.leaves(r)
    }

    /// They, lent to open, sign and seal by.
    pub(crate) fn lend(&self) -> Credentials<'_>
        ensures { result ≡ self.now }
    {
        Credentials::new(&self.ring, &self.signers, self.every)
    }

    /// The message that bytes are to the party, if they open.
    pub(crate) fn open<'a>(&self, alloc: Global, bytes: &'a [u8]) -> Option<MsgRef<'a>>
        ensures { MatchOption result (opened self.now bytes.now ≡ None) (λ m. (opened self.now bytes.now ≡ Some (message m)) × IsReceived m) }
    {
        match self.lend().open(alloc, bytes) {
            Ok(checked) => Some(checked.into_msg()),
            Err(_) => None,
        }
    }
}
