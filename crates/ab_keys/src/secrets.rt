//! What a seed gives a replica to sign with.

ghost use Rattle.std.specs.Prelude.{◌≡◌, ◌++◌};
ghost use Rattle.ab_num.specs.declared.party.Party.TheVariants.{Replica};
ghost use Rattle.ab_mac.specs.Digests.{marked};
ghost use Rattle.ab_keys.specs.Keys.{party_bytes};
ghost use Rattle.ab_keys.specs.Secrets.{tree_name, tree_seed};

use crate::keys::party_bytes;
use ab_num::Party;
use sha2::{Digest, Sha256};

/// The mark of the name of a replica's tree.
const NAME: u8 = 3;

/// The mark of the seed of a replica's private values.
const VALUES: u8 = 4;

/// The digest of a seed and a replica behind a mark.
fn marked_replica(mark: u8, seed: &[u8; 32], r: u8) -> [u8; 32]
    ensures { result ≡ marked mark (seed.now ++ party_bytes (Replica r)) }
{
    let mut hasher = Sha256::new();
    hasher.update(&[mark]);
    hasher.update(seed);
    hasher.update(&party_bytes(Party::Replica(r)));
    hasher.finalize()
}

/// The name of replica `r`'s tree.
#[tactic(auto, unfolding(crate::specs::Secrets::tree_name))]
pub fn tree_name(seed: &[u8; 32], r: u8) -> [u8; 16]
    ensures { result ≡ tree_name seed.now r }
{
    let digest = marked_replica(NAME, seed, r);
    let mut name = [0; 16];
    name.copy_from_slice(&digest[..16]);
    name
}

/// The seed of replica `r`'s private values.
#[tactic(auto, unfolding(crate::specs::Secrets::tree_seed))]
pub fn tree_seed(seed: &[u8; 32], r: u8) -> [u8; 32]
    ensures { result ≡ tree_seed seed.now r }
{
    marked_replica(VALUES, seed, r)
}
