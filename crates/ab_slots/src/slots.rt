//! The values of the slots of an order.

ghost use Rattle.std.specs.Prelude.{◌≡◌, ◌<◌, ◌≤◌, [], ◌∷◌, ◌++◌, true, Some, length, slice_get, IfSome, IfOk, OnOk, OnErr, vec_len};
ghost use Rattle.std.specs.Option.{option_map};
ghost use Rattle.std.specs.Vec.{vec_capacity};
ghost use Rattle.ab_hist.specs.Histories.{can_push};
ghost use Rattle.ab_msg.specs.declared.value.Value.TheVariants as value;
ghost use Rattle.ab_abs.specs.Values.{goes, list_of};
ghost use Rattle.ab_slots.specs.Based.{AreSlots};
ghost use Rattle.ab_pbft_rules.specs.Rules.{base_of, is_empty as has_none};

use ab_hist::{History, PushFault, Request};
use ab_msg::{Copied, Value, copy_each};
use ab_num::OutOfMemory;
use std::alloc::Global;
use std::marker::Model;

/// The values of the slots from 0 on, at most 256: a base, and then requests that may follow it.
pub struct Slots {
    values: Vec<Value>,
    list: History,
}

impl Drop for Slots {
    fn drop(self) {
        let Slots { values: _, list: _ } = self;
    }
}

impl Model for Slots {
    ghost use Rattle.std.specs.Prelude.{List};
    ghost use Rattle.ab_msg.specs.declared.value.Value.{Value as SlotValue};
    ghost use Rattle.ab_slots.specs.Based.{AreSlots};

    ghost Value = { List SlotValue };

    ghost view = { λ s. s.values.items };

    ghost invariant = { λ s. AreSlots s.values.items s.list };
}

/// Adds a request that may come next.
fn push_to(alloc: Global, list: &mut History, m: &Request) -> Result<(), OutOfMemory>
    requires { can_push list.old m.now ≡ true }
    ensures ok { OnOk result (list.new ≡ list.old ++ m.now ∷ []) }
    ensures err { OnErr result (list.new ≡ list.old) }
{
    match list.push(alloc, m.copy()) {
        Ok(()) => Ok(()),
        Err(fault) => match fault {
            PushFault::OutOfMemory => Err(OutOfMemory),
            PushFault::Full | PushFault::Repeat => unreachable!(),
        },
    }
}

/// Makes the list of values that of these and one more, which may come next.
#[tactic(auto, using(crate::proofs::SlotLemmas::list_began, crate::proofs::SlotLemmas::list_pushed, crate::proofs::SlotLemmas::may_push))]
fn grow(
    alloc: Global,
    list: &mut History,
    values: &[Value],
    value: &Value,
) -> Result<(), OutOfMemory>
    requires slots { AreSlots values.now list.old }
    requires next { goes values.now value.now ≡ true }
    ensures ok { OnOk result (list.new ≡ list_of (values.now ++ value.now ∷ [])) }
    ensures err { OnErr result (list.new ≡ list.old) }
{
    match value {
        Value::Base(base) => {
            *list = base.copy(alloc)?;
            Ok(())
        }
        Value::Request(m) => push_to(alloc, list, m),
    }
}

/// Adds a value for which there is room.
fn add(values: &mut Vec<Value>, value: Value)
    requires { vec_len values.old < vec_capacity values.old }
    ensures { values.new.items ≡ values.old.items ++ value ∷ [] }
{
    match values.push(value) {
        Ok(()) => {}
        Err(_) => unreachable!(),
    }
}

impl Slots {
    /// No values.
    pub fn new(alloc: Global) -> Slots
        ensures { result ≡ [] }
    {
        Slots {
            values: Vec::new(alloc),
            list: History::new(alloc),
        }
    }

    pub fn len(&self) -> usize
        ensures len { result ≡ length self.now }
        ensures few { result ≤ 256 }
    {
        self.values.len()
    }

    pub fn is_empty(&self) -> bool
        ensures { result ≡ has_none self.now }
    {
        self.values.is_empty()
    }

    /// The value of slot `n`.
    pub fn get(&self, n: usize) -> Option<&Value>
        ensures value { option_map (λ v. v.now) result ≡ slice_get self.now n }
        ensures within { IfSome result (λ _. (n < length self.now) × (n < 256)) }
    {
        self.values.get(n)
    }

    /// The value of slot `n`, where there is one.
    pub fn at(&self, n: usize) -> &Value
        requires { n < length self.now }
        ensures value { slice_get self.now n ≡ Some result.now }
        ensures few { n < 256 }
    {
        &self.values[n]
    }

    /// The base in slot 0.
    pub fn base(&self) -> Option<&History>
        ensures { option_map (λ h. h.now) result ≡ base_of self.now }
    {
        match self.values.first() {
            Some(Value::Base(base)) => Some(base),
            _ => None,
        }
    }

    /// The base with the requests behind it.
    pub fn list(&self) -> &History
        ensures { result.now ≡ list_of self.now }
    {
        &self.list
    }

    /// Whether a request may come next.
    pub fn can_push_request(&self, m: &Request) -> bool
        ensures { result ≡ goes self.now (value.Request m.now) }
    {
        !self.values.is_empty() && self.list.can_push(m)
    }

    /// Whether a value may come next.
    pub fn can_push(&self, value: &Value) -> bool
        ensures { result ≡ goes self.now value.now }
    {
        match value {
            Value::Base(_) => self.values.is_empty(),
            Value::Request(m) => self.can_push_request(m),
        }
    }

    /// Adds a value that may come next.
    #[tactic(auto, using(crate::proofs::SlotLemmas::slots_grown))]
    pub fn push(&mut self, alloc: Global, value: Value) -> Result<(), OutOfMemory>
        requires next { goes self.old value ≡ true }
        requires room { length self.old < 256 }
        ensures { OnOk result (self.new ≡ self.old ++ value ∷ []) }
    {
        self.values.reserve(1)?;
        grow(alloc, &mut self.list, &self.values, &value)?;
        add(&mut self.values, value);
        Ok(())
    }

    /// The same values.
    pub fn copy(&self, alloc: Global) -> Result<Slots, OutOfMemory>
        ensures { IfOk result (λ s. s ≡ self.now) }
    {
        let values = copy_each(alloc, self.values.as_slice())?;
        let list = self.list.copy(alloc)?;
        Ok(Slots { values, list })
    }
}
