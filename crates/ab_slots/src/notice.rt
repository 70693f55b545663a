//! What a replica does that others hear of, or that it keeps signed.

use ab_msg::{Value, ViewEntries};

/// Something that a replica does in an event, besides accepting and executing values.
#[derive(Drop)]
pub enum Notice {
    /// It signs the PREPARE of a slot in a view.
    Signs { view: u32, slot: u8, x: [u8; 32] },
    /// The value of a slot is prepared in a view.
    Prepares { view: u32, slot: u8, value: Value },
    /// It leaves for a view, with the slots that it states as prepared.
    Changes { view: u32, entries: ViewEntries },
    /// It enters a view.
    Enters { view: u32 },
    /// It offers a value for a slot of a view.
    Offers { view: u32, slot: u8, value: Value },
    /// It leads a view.
    Leads { view: u32 },
}
