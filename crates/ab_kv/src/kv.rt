//! A service that keeps a value for each key.

ghost use Rattle.std.specs.Prelude.{◌≡◌, ◌≤◌, ◌++◌, ◌↔◌, false, length, codes, None, IsTrue, IsSome, IfSome, IfOk, OnOk, OnErr};
ghost use Rattle.std.specs.Option.{option_map};
ghost use Rattle.std.specs.FinMap as map;
ghost use Rattle.ab_kv.specs.Commands.{IsKey, IsValue, Put as PutOf, Get as GetOf, Del as DelOf, Cas as CasOf};
ghost use Rattle.ab_kv.specs.Stores.{is_full as test_full, after_command, answer_to};

use crate::command::{Command, KEY_BYTES, VALUE_BYTES};
use ab_hist::{Request, array_of};
use ab_num::OutOfMemory;
use ab_svc::{Reply, Service};
use arrayvec::ArrayVec;
use std::alloc::Global;
use std::collections::BTreeMap;
use std::marker::Model;

/// How many keys a store may hold.
const CAPACITY: usize = 65_536;

type Key = ArrayVec<u8, KEY_BYTES>;

type Value = ArrayVec<u8, VALUE_BYTES>;

/// A store of keys and values. A key has 1 to 32 bytes and a value 1 to 64, each `a` to `z`, `0` to
/// `9`, `_`, `.` or `-`. Between words stands one space.
///
/// - `put KEY VALUE` is `full` where KEY is new and 65,536 keys are held. Else it is `ok`, and KEY
///   has VALUE.
/// - `get KEY` is `val VALUE`, or `none`.
/// - `del KEY` is `ok`, and KEY is gone, or `none`.
/// - `cas KEY OLD NEW` is `none` where KEY has no value, and `no` where its value isn't OLD. Else it
///   is `ok`, and KEY has NEW.
/// - All else is `bad`, and changes nothing.
pub struct Kv {
    values: BTreeMap<Key, Value>,
}

// Written out, so that no crate above makes and proves it anew.
impl Drop for Kv {
    fn drop(self) {
        let Kv { values: _ } = self;
    }
}

/// It is seen as the map from the bytes of each key to those of its value.
impl Model for Kv {
    ghost use Rattle.std.specs.Coded.{coded_ℕ, coded_list};
    ghost use Rattle.std.specs.FinMap.{code};
    ghost use Rattle.ab_kv.specs.Stores.{Store};
    ghost use Rattle.ab_kv.specs.Contents.{store_of, IsContents};

    ghost Value = { Store };

    ghost coded = { code (coded_list coded_ℕ) (coded_list coded_ℕ) };

    ghost view = { λ kv. store_of kv.values };

    ghost invariant = { λ kv. IsContents kv.values };
}

/// The reply to a `get` of a key that has this value.
fn found(value: &[u8]) -> Reply
    requires { length value.now ≤ 64 }
    ensures { result.items ≡ codes "val " ++ value.now }
{
    let mut reply = array_of(b"val ");
    match reply.try_extend_from_slice(value) {
        Ok(()) => {}
        // A reply has room for the longest value.
        Err(_) => unreachable!(),
    }
    reply
}

impl Kv {
    /// A store without keys.
    pub fn new(alloc: Global) -> Kv
        ensures { result ≡ map.empty }
    {
        Kv {
            values: BTreeMap::new(alloc),
        }
    }

    /// How many keys there are.
    pub fn len(&self) -> usize
        ensures len { result ≡ map.len self.now }
        ensures few { result ≤ 65536 }
    {
        self.values.len()
    }

    pub fn is_empty(&self) -> bool
        ensures { IsTrue result ↔ (self.now ≡ map.empty) }
    {
        self.len() == 0
    }

    /// The value of a key.
    pub fn value_of(&self, key: &[u8]) -> Option<&[u8]>
        requires { length key.now ≤ 32 }
        ensures value { option_map (λ v. v.now) result ≡ map.get self.now key.now }
        ensures short { IfSome result (λ v. length v.now ≤ 64) }
    {
        match self.values.get(&array_of(key)) {
            Some(value) => Some(value.as_slice()),
            None => None,
        }
    }

    /// Whether a key is new and finds no room.
    fn is_full(&self, key: &[u8]) -> bool
        requires { length key.now ≤ 32 }
        ensures { result ≡ test_full self.now key.now }
    {
        self.len() >= CAPACITY && self.value_of(key).is_none()
    }

    /// Gives a key a value. Only a new key wants memory.
    fn insert(&mut self, key: &[u8], value: &[u8]) -> Result<(), OutOfMemory>
        requires key { length key.now ≤ 32 }
        requires value { length value.now ≤ 64 }
        requires room { test_full self.old key.now ≡ false }
        ensures ok { OnOk result (self.new ≡ map.insert self.old key.now value.now) }
        ensures new { OnErr result (map.get self.old key.now ≡ None) }
        ensures err { OnErr result (self.new ≡ self.old) }
    {
        self.values.insert(array_of(key), array_of(value))?;
        Ok(())
    }

    /// Takes a key away, and says whether it was there.
    fn remove(&mut self, key: &[u8]) -> bool
        requires { length key.now ≤ 32 }
        ensures there { result ≡ map.contains_key self.old key.now }
        ensures gone { self.new ≡ map.remove self.old key.now }
    {
        self.values.remove(&array_of(key)).is_some()
    }

    fn put(&mut self, key: &[u8], value: &[u8]) -> Result<Reply, OutOfMemory>
        requires key { IsKey key.now }
        requires value { IsValue value.now }
        ensures ok { IfOk result (λ reply. (self.new ≡ after_command self.old (PutOf key.now value.now))
            × (reply.items ≡ answer_to self.old (PutOf key.now value.now))) }
        ensures new { OnErr result (map.get self.old key.now ≡ None) }
        ensures err { OnErr result (self.new ≡ self.old) }
    {
        if self.is_full(key) {
            return Ok(array_of(b"full"));
        }
        self.insert(key, value)?;
        Ok(array_of(b"ok"))
    }

    fn get(&self, key: &[u8]) -> Reply
        requires { IsKey key.now }
        ensures { result.items ≡ answer_to self.now (GetOf key.now) }
    {
        match self.value_of(key) {
            Some(value) => found(value),
            None => array_of(b"none"),
        }
    }

    fn del(&mut self, key: &[u8]) -> Reply
        requires { IsKey key.now }
        ensures store { self.new ≡ after_command self.old (DelOf key.now) }
        ensures reply { result.items ≡ answer_to self.old (DelOf key.now) }
    {
        if self.remove(key) {
            array_of(b"ok")
        } else {
            array_of(b"none")
        }
    }

    /// Gives a key that is there another value.
    fn replace(&mut self, key: &[u8], value: &[u8])
        requires key { length key.now ≤ 32 }
        requires value { length value.now ≤ 64 }
        requires there { IsSome (map.get self.old key.now) }
        ensures { self.new ≡ map.insert self.old key.now value.now }
    {
        match self.insert(key, value) {
            Ok(()) => {}
            Err(_) => unreachable!(),
        }
    }

    fn cas(&mut self, key: &[u8], old: &[u8], new: &[u8]) -> Reply
        requires key { IsKey key.now }
        requires new { IsValue new.now }
        ensures store { self.new ≡ after_command self.old (CasOf key.now old.now new.now) }
        ensures reply { result.items ≡ answer_to self.old (CasOf key.now old.now new.now) }
    {
        let Some(held) = self.value_of(key) else {
            return array_of(b"none");
        };
        if held != old {
            return array_of(b"no");
        }
        self.replace(key, new);
        array_of(b"ok")
    }
}

impl Service for Kv {
    ghost use Rattle.ab_kv.specs.KvMachines.{kv_machine};
    ghost use Rattle.ab_kv.specs.Rows.{PutsNewKey};
    ghost use Rattle.ab_kv.specs.Laws.{short_law};

    ghost machine = { kv_machine };

    ghost short = { short_law };

    fn start(alloc: Global) -> Result<Self, OutOfMemory> {
        Ok(Kv::new(alloc))
    }

    /// Only a `put` of a new key may be refused memory.
    fn apply(&mut self, _alloc: Global, m: &Request) -> Result<Reply, OutOfMemory>
        ensures ok { IfOk result (λ reply. (self.new ≡ kv_machine.after self.old m.now)
            × (reply ≡ kv_machine.answer self.old m.now)) }
        ensures new { OnErr result (PutsNewKey self.old m.now) }
        ensures err { OnErr result (self.new ≡ self.old) }
    {
        match Command::read(m.command.as_slice()) {
            Some(Command::Put { key, value }) => self.put(key, value),
            Some(Command::Get { key }) => Ok(self.get(key)),
            Some(Command::Del { key }) => Ok(self.del(key)),
            Some(Command::Cas { key, old, new }) => Ok(self.cas(key, old, new)),
            None => Ok(array_of(b"bad")),
        }
    }

    fn copy(&self, _alloc: Global) -> Result<Self, OutOfMemory> {
        Ok(Kv {
            values: self.values.clone()?,
        })
    }
}
