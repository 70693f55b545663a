//! What holds of the text of each schedule of the grammar.

ghost use Rattle.std.specs.Prelude.{Ok};
ghost use Rattle.ab_text.specs.Heads.{Script};
ghost use Rattle.ab_text.specs.Schedules.{ReadsText};
ghost use Rattle.ab_text.specs.Spelling.{IsBuilt, IsSchedule, IsSpelled};
ghost use Rattle.ab_text.specs.Texts.{schedule_text};

use crate::reading::spelled_is_read;

/// The text spells the schedule.
pub fn written_is_spelled()
    ensures { (s : Script) → IsSchedule s → IsSpelled (schedule_text s) s }
{}

/// Reading the text gives the schedule again, if it has no checkpoints.
pub fn written_is_read()
    ensures { (s : Script) → IsSchedule s → IsBuilt s → ReadsText (schedule_text s) (Ok s) }
{
    written_is_spelled();
    spelled_is_read();
}
