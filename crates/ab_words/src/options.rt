//! The options: their names, and which each command has.

pub(crate) const BASE: &str = "base";

/// After how many requests a checkpoint is due, which may be missing.
pub(crate) const CHECKPOINT: &str = "checkpoint";

pub(crate) const CLIENTS: &str = "clients";

pub(crate) const EVENTS: &str = "events";

pub(crate) const F: &str = "f";

/// The name of a journal, which may be missing.
pub(crate) const JOURNAL: &str = "journal";

pub(crate) const LMS: &str = "lms";

pub(crate) const PARTY: &str = "party";

pub(crate) const PLAN: &str = "plan";

pub(crate) const SEED: &str = "seed";

pub(crate) const SERVICE: &str = "service";

/// The only flag, which takes no value and may be missing.
pub(crate) const TRACE: &str = "trace";

pub(crate) const TURNS: &str = "turns";

pub(crate) const WAIT: &str = "wait";

/// The only word that the command `audit` takes.
pub(crate) const WHY: &str = "--why";

/// The options of the command `keys`.
pub(crate) const KEYS: &[&str] = &[PLAN, F, CLIENTS, SERVICE, LMS, SEED, PARTY, CHECKPOINT];

/// The options of the command `cluster`.
pub(crate) const CLUSTER: &[&str] = &[PLAN, F, SERVICE, LMS, SEED, BASE, WAIT, TURNS, CHECKPOINT];

/// The options of the command `storm`.
pub(crate) const STORM: &[&str] = &[PLAN, F, CLIENTS, SEED, EVENTS];

/// The options of the command `node`.
pub(crate) const NODE: &[&str] = &[BASE, WAIT, TURNS, TRACE, JOURNAL];
