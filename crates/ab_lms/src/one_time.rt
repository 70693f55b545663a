//! The one-time signatures of RFC 8554 (LM-OTS), by its set LMOTS_SHA256_N32_W4.
//!
//! A leaf is named by the 16 bytes I of its key and by its number q, and has all its private values
//! from one seed, as Appendix A of the RFC derives them. The randomizer C comes from the seed too,
//! by the same rule, where the RFC takes it at random. A leaf must sign one message only.

ghost use Rattle.std.specs.Prelude.{vec_len, ◌≡◌, ◌+◌, ◌-◌, ◌*◌, ◌/◌, ◌<◌, ◌≤◌, ℕ, ◌++◌, IfOk, OnOk, Some, length, List};
ghost use Rattle.sha2.specs.Hashers.{Holds256};
ghost use Rattle.ab_lms.specs.OneTime.{candidate, chain, chain_step, checked, checksum, digit, ends, key_of_ends, key_once, leaf, message_digest, randomizer, secret, signature, signed_values};

use ab_num::{OutOfMemory, get_u32};
use sha2::{Digest, Sha256};
use std::alloc::{AllocError, Global};

/// The number of the set (RFC 8554, section 4.1).
pub const LMOTS_SHA256_N32_W4: u32 = 3;

/// The bytes of a signature: the type, C, and 67 values of 32 bytes.
pub const SIGNATURE_LEN: usize = 2180;

/// The number of hash chains.
const CHAINS: u16 = 67;

/// The hasher of a text that begins with the key's name and the leaf's number.
fn leaf_hasher(id: &[u8; 16], q: u32) -> Sha256
    ensures { Holds256 result (leaf id.now q) }
{
    let mut hasher = Sha256::new();
    hasher.update(id);
    hasher.update(&q.to_be_bytes());
    hasher
}

/// One step of a chain.
#[tactic(auto, unfolding(crate::specs::OneTime::chain_step))]
fn chain_step(id: &[u8; 16], q: u32, i: u16, j: u8, value: &[u8; 32]) -> [u8; 32]
    ensures { result ≡ chain_step id.now q i j value.now }
{
    let mut hasher = leaf_hasher(id, q);
    hasher.update(&i.to_be_bytes());
    hasher.update(&[j]);
    hasher.update(value);
    hasher.finalize()
}

/// The steps of a chain with numbers from `from` up to `to`.
#[tactic(auto, unfolding(crate::specs::OneTime::chain))]
fn chain(id: &[u8; 16], q: u32, i: u16, from: u8, to: u8, start: &[u8; 32]) -> [u8; 32]
    requires { from ≤ to }
    ensures { result ≡ chain id.now q i from (to - from) start.now }
{
    let mut value = *start;
    'steps: for j in from..to {
        value = chain_step(id, q, i, j, &value);
    }
    value
}

/// The i-th field of four bits.
fn digit(bytes: &[u8], i: usize) -> u8
    requires { i / 2 < length bytes.now }
    ensures value { result ≡ digit bytes.now i }
    ensures small { result < 16 }
{
    if i % 2 == 0 {
        bytes[i / 2] / 16
    } else {
        bytes[i / 2] % 16
    }
}

/// The checksum of a digest, before its shift.
#[tactic(auto, unfolding(crate::specs::OneTime::checksum))]
fn checksum(digest: &[u8; 32]) -> u16
    ensures value { result ≡ checksum digest.now 64 }
    ensures bound { result ≤ 960 }
{
    let mut sum = 0u16;
    'digits: for i in 0..64 {
        sum += u16::from(15 - digit(digest, i));
    }
    sum
}

/// The digest with its checksum behind it.
fn checked(digest: &[u8; 32]) -> [u8; 34]
    ensures { result ≡ checked digest.now }
{
    let sum = (16 * checksum(digest)).to_be_bytes();
    let mut out = [0; 34];
    out[..32].copy_from_slice(digest);
    out[32..].copy_from_slice(&sum);
    out
}

/// The digest that is signed.
#[tactic(auto, unfolding(crate::specs::OneTime::message_digest))]
fn message_digest(id: &[u8; 16], q: u32, c: &[u8], msg: &[u8]) -> [u8; 32]
    ensures { result ≡ message_digest id.now q c.now msg.now }
{
    let mut hasher = leaf_hasher(id, q);
    hasher.update(&[0x81u8, 0x81]);
    hasher.update(c);
    hasher.update(msg);
    hasher.finalize()
}

/// The first private value of a chain.
#[tactic(auto, unfolding(crate::specs::OneTime::secret))]
fn secret(id: &[u8; 16], q: u32, seed: &[u8; 32], i: u16) -> [u8; 32]
    ensures { result ≡ secret id.now q seed.now i }
{
    let mut hasher = leaf_hasher(id, q);
    hasher.update(&i.to_be_bytes());
    hasher.update(&[0xffu8]);
    hasher.update(seed);
    hasher.finalize()
}

/// The randomizer.
#[tactic(auto, unfolding(crate::specs::OneTime::randomizer))]
fn randomizer(id: &[u8; 16], q: u32, seed: &[u8; 32]) -> [u8; 32]
    ensures { result ≡ randomizer id.now q seed.now }
{
    let mut hasher = leaf_hasher(id, q);
    hasher.update(&[0xffu8, 0xfd, 0xff]);
    hasher.update(seed);
    hasher.finalize()
}

/// The 32 bytes of a text.
fn word(bytes: &[u8]) -> [u8; 32]
    requires { length bytes.now ≡ 32 }
    ensures { result ≡ bytes.now }
{
    let mut out = [0; 32];
    out.copy_from_slice(bytes);
    out
}

/// The key that the values of a signature lead to, where they stand at the given digits.
#[tactic(auto, unfolding(crate::specs::OneTime::ends))]
fn key_of_values(id: &[u8; 16], q: u32, digits: &[u8; 34], values: &[u8]) -> [u8; 32]
    requires { length values.now ≡ 2144 }
    ensures { result ≡ key_of_ends id.now q (ends id.now q digits.now values.now 67) }
{
    let mut hasher = leaf_hasher(id, q);
    hasher.update(&[0x80u8, 0x80]);
    'chains: for i in 0..CHAINS {
        let at = usize::from(i);
        let value = word(&values[32 * at..32 * at + 32]);
        hasher.update(&chain(id, q, i, digit(digits, at), 15, &value));
    }
    hasher.finalize()
}

/// The public key that a signature of `msg` by leaf `q` leads to (RFC 8554, algorithm 4b). None
/// exactly where the signature hasn't 2,180 bytes, or its type isn't 3.
pub fn candidate(id: &[u8; 16], q: u32, msg: &[u8], sig: &[u8]) -> Option<[u8; 32]>
    ensures { result ≡ candidate id.now q msg.now sig.now }
{
    if sig.len() != SIGNATURE_LEN || get_u32(sig, 0) != Some(LMOTS_SHA256_N32_W4) {
        return None;
    }
    let digits = checked(&message_digest(id, q, &sig[4..36], msg));
    Some(key_of_values(id, q, &digits, &sig[36..SIGNATURE_LEN]))
}

/// The public key of leaf `q` (RFC 8554, algorithm 1).
#[tactic(auto, unfolding(crate::specs::OneTime::whole_chains))]
pub fn key_once(id: &[u8; 16], q: u32, seed: &[u8; 32]) -> [u8; 32]
    ensures { result ≡ key_once id.now q seed.now }
{
    let mut hasher = leaf_hasher(id, q);
    hasher.update(&[0x80u8, 0x80]);
    'chains: for i in 0..CHAINS {
        hasher.update(&chain(id, q, i, 0, 15, &secret(id, q, seed, i)));
    }
    hasher.finalize()
}

/// Appends the 67 values of a signature.
#[tactic(auto, unfolding(crate::specs::OneTime::signed_values))]
fn push_values(
    id: &[u8; 16],
    q: u32,
    seed: &[u8; 32],
    digits: &[u8; 34],
    out: &mut Vec<u8>,
) -> Result<(), AllocError>
    ensures { OnOk result (out.new.items ≡ out.old.items ++ signed_values id.now q seed.now digits.now 67) }
{
    'chains: for i in 0..CHAINS {
        let steps = digit(digits, usize::from(i));
        let value = chain(id, q, i, 0, steps, &secret(id, q, seed, i));
        out.extend_from_slice(&value)?;
    }
    Ok(())
}

/// The signature of `msg` by leaf `q` (RFC 8554, algorithm 3).
#[tactic(auto, using(crate::proofs::Chains::signature_lengths))]
pub fn sign_once(
    alloc: Global,
    id: &[u8; 16],
    q: u32,
    seed: &[u8; 32],
    msg: &[u8],
) -> Result<Vec<u8>, OutOfMemory>
    ensures signature { IfOk result (λ v. v.items ≡ signature id.now q seed.now msg.now) }
    ensures long { IfOk result (λ v. vec_len v ≡ SIGNATURE_LEN) }
{
    let c = randomizer(id, q, seed);
    let digits = checked(&message_digest(id, q, &c, msg));
    let mut out = Vec::with_capacity(alloc, SIGNATURE_LEN)?;
    out.extend_from_slice(&LMOTS_SHA256_N32_W4.to_be_bytes())?;
    out.extend_from_slice(&c)?;
    push_values(id, q, seed, &digits, &mut out)?;
    Ok(out)
}

/// What a leaf signs leads to its key, whatever the message.
pub fn signature_leads_to_key()
    ensures { (id seed message : List ℕ) (q : ℕ) → candidate id q message (signature id q seed message) ≡ Some (key_once id q seed) }
{}
