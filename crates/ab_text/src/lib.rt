//! The texts of schedules and reports, read and written.
#![tactic(auto)]

mod bytes;
mod cores;
mod event;
mod event_lines;
mod event_writing;
mod fault;
mod faulty;
mod head;
mod head_lines;
mod head_writing;
mod hex_bytes;
mod items;
mod later_lines;
mod laws;
mod line;
mod line_writing;
mod lines;
mod numbers;
mod parts;
mod reading;
mod report;
mod schedule;
mod version;
mod writing;

pub use cores::party_of;
pub use event::{Core, Event};
pub use event_lines::command_of;
pub use fault::TextFault;
pub use head::{
    one_level_in, plan_in, plan_text, scheme_in, scheme_text, service_in, service_text,
    two_levels_in, word_number,
};
pub use head_lines::cluster_of;
pub use hex_bytes::bytes_in;
pub use items::Items;
pub use later_lines::{lines_of_head, most_built};
pub use laws::{written_is_read, written_is_spelled};
pub use line::{Breach, Line, OpenCause, Premise};
pub use lines::next_line;
pub use numbers::number;
pub use parts::{after, split_first};
pub use reading::{
    fault_is_first, one_reading, read_is_in_form, read_is_spelled, read_schedule, spelled_is_read,
};
pub use report::{party_string, write_end, write_log, write_premise, write_seen};
pub use schedule::{Head, Schedule};
pub use version::Version;
pub use writing::write_schedule;
