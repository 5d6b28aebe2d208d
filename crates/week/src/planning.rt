// The question by version and day.
ghost use Rattle.std.specs.Prelude.{◌≡◌};
ghost use Rattle.refusals.specs.Answers.{outcome_of};
ghost use Rattle.week.specs.Store.{store, kept};
ghost use Rattle.week.specs.Planning.{plan_answer};

use crate::list::{WEEKDAYS, place_of};
use crate::store::{MASKS, SLOTS, list_in, newest_kept, slot_of};
use refusals::refusal::Refusal;

// Whether a version is among the last 16, all of its 32 bits looked at.
fn is_kept(newest: u16, version: u32) -> bool
    ensures { result ≡ kept newest version }
{
    let last = newest as u32;
    version != 0 && version <= last && last < version + SLOTS as u32
}

#[tactic(auto, unfolding(refusals::specs::Rules::first_broken))]
pub fn week_plan(
    versions: &[u16; SLOTS],
    lists: &[u8; MASKS],
    version: u32,
    day: u32,
) -> Result<u32, Refusal>
    ensures { outcome_of result ≡ plan_answer (store versions.now lists.now) version day }
{
    let newest = newest_kept(versions, lists).ok_or(Refusal::WeekStore)?;
    if !is_kept(newest, version) || WEEKDAYS as u32 <= day {
        return Err(Refusal::VersionOrDay);
    }
    let list = list_in(lists, slot_of(version as u16));
    Ok(place_of(list, day) as u32)
}
