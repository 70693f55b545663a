//! Formats of bytes: readers of slices, writers to vectors, and the law that ties the two. Lists in
//! bytes are gone over without memory.
#![tactic(auto)]

mod bad;
mod laws;
mod list_ref;
mod owning;
mod part;
mod reading;
mod writing;

pub use bad::Bad;
pub use laws::{entries_are_formats, numbers_are_formats, texts_are_formats};
pub use list_ref::{ListRef, list_at};
pub use owning::own_list;
pub use part::Part;
pub use reading::{
    array_at, bytes_at, ranged_u8, ranged_u16, ranged_u32, ranged_u64, text_u8, text_u16, u8_at,
    u16_at, u32_at, u64_at,
};
pub use writing::{put_bytes, put_u8, put_u16, put_u32, put_u64};
