//! What the store answers, row by row.

ghost use Rattle.std.specs.Prelude.{◌≡◌, ◌≢◌, ℕ, ◌+◌, ◌-◌, ◌<◌, ◌≤◌, ◌↔◌, List, ◌++◌, Some, None, codes};
ghost use Rattle.std.specs.FinMap.{get, len};
ghost use Rattle.ab_hist.specs.declared.request.Request.{Request};
ghost use Rattle.ab_svc.specs.Machines.{serve};
ghost use Rattle.ab_kv.specs.Commands.{Command, Put, Get, Del, Cas, Spells};
ghost use Rattle.ab_kv.specs.Readings.{command_in};
ghost use Rattle.ab_kv.specs.Stores.{Store};
ghost use Rattle.ab_kv.specs.KvMachines.{kv_machine};
ghost use Rattle.ab_kv.specs.Rows.{Reads, Writes};

/// A command is read exactly where the bytes spell it, and none where they spell none. Bytes spell
/// one command at most.
pub fn commands_are_spelled()
    ensures read { (bytes : List ℕ) (c : Command) → (command_in bytes ≡ Some c) ↔ Spells bytes c }
    ensures none { (bytes : List ℕ) → (command_in bytes ≡ None) ↔ ((c : Command) → ¬ Spells bytes c) }
    ensures one { (bytes : List ℕ) (c d : Command) → Spells bytes c → Spells bytes d → c ≡ d }
{}

/// At first no key has a value. After whatever requests at most 65,536 keys have one.
pub fn store_is_bounded()
    ensures empty { (k : List ℕ) → get kv_machine.begin k ≡ None }
    ensures none { len kv_machine.begin ≡ 0 }
    ensures few { (h : List Request) → len (serve kv_machine h) ≤ 65536 }
{}

/// `put k v` is `ok`, and k has v, unless k is new and 65,536 keys are held.
pub fn put_is()
    ensures held { (s : Store) (m : Request) (k v w : List ℕ) → Spells m.command.items (Put k v)
        → get s k ≡ Some w → Writes s m (codes "ok") k (Some v) (len s) }
    ensures new { (s : Store) (m : Request) (k v : List ℕ) → Spells m.command.items (Put k v)
        → get s k ≡ None → len s < 65536 → Writes s m (codes "ok") k (Some v) (len s + 1) }
    ensures full { (s : Store) (m : Request) (k v : List ℕ) → Spells m.command.items (Put k v)
        → get s k ≡ None → 65536 ≤ len s → Reads s m (codes "full") }
{}

/// `get k` is `val` and the value, or `none`.
pub fn get_is()
    ensures held { (s : Store) (m : Request) (k v : List ℕ) → Spells m.command.items (Get k)
        → get s k ≡ Some v → Reads s m (codes "val " ++ v) }
    ensures none { (s : Store) (m : Request) (k : List ℕ) → Spells m.command.items (Get k)
        → get s k ≡ None → Reads s m (codes "none") }
{}

/// `del k` is `ok`, and k is gone, or `none`.
pub fn del_is()
    ensures held { (s : Store) (m : Request) (k v : List ℕ) → Spells m.command.items (Del k)
        → get s k ≡ Some v → Writes s m (codes "ok") k None (len s - 1) }
    ensures none { (s : Store) (m : Request) (k : List ℕ) → Spells m.command.items (Del k)
        → get s k ≡ None → Reads s m (codes "none") }
{}

/// `cas k old new` is `none` where k has no value, `no` where its value isn't old, and else `ok`,
/// and k has new.
pub fn cas_is()
    ensures same { (s : Store) (m : Request) (k old new : List ℕ) → Spells m.command.items (Cas k old new)
        → get s k ≡ Some old → Writes s m (codes "ok") k (Some new) (len s) }
    ensures other { (s : Store) (m : Request) (k old new v : List ℕ) → Spells m.command.items (Cas k old new)
        → get s k ≡ Some v → v ≢ old → Reads s m (codes "no") }
    ensures none { (s : Store) (m : Request) (k old new : List ℕ) → Spells m.command.items (Cas k old new)
        → get s k ≡ None → Reads s m (codes "none") }
{}

/// What spells no command is `bad`.
pub fn bad_is()
    ensures { (s : Store) (m : Request) → ((c : Command) → ¬ Spells m.command.items c) → Reads s m (codes "bad") }
{}
