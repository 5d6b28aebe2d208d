// A store made from a list, and changed by a new one.
ghost use Rattle.std.specs.Prelude.{◌≡◌};
ghost use Rattle.refusals.specs.Answers.{outcome_of};
ghost use Rattle.week.specs.Store.{store};
ghost use Rattle.week.specs.Making.{new_answer, new_leaves, change_answer, change_leaves};

use crate::list::list_keeps;
use crate::store::{MASKS, SLOTS, newest_kept, put_version};
use refusals::refusal::Refusal;

// A store with this list as version 1, and nothing of what the tables held.
#[tactic(auto, unfolding(refusals::specs::Rules::first_broken))]
pub fn week_new(
    masks: &[u8],
    versions: &mut [u16; SLOTS],
    lists: &mut [u8; MASKS],
) -> Result<u16, Refusal>
    ensures answer { outcome_of result ≡ new_answer masks.now }
    ensures versions { versions.new ≡ (new_leaves masks.now (store versions.old lists.old)).versions }
    ensures lists { lists.new ≡ (new_leaves masks.now (store versions.old lists.old)).lists }
{
    if !list_keeps(masks) {
        return Err(Refusal::WeekList);
    }
    *versions = [0; SLOTS];
    *lists = [0; MASKS];
    put_version(1, masks, versions, lists);
    Ok(1)
}

// The list as the next version, in the place of the oldest where 16 are kept.
#[tactic(auto, unfolding(refusals::specs::Rules::first_broken))]
pub fn week_change(
    masks: &[u8],
    versions: &mut [u16; SLOTS],
    lists: &mut [u8; MASKS],
) -> Result<u16, Refusal>
    ensures answer { outcome_of result ≡ change_answer masks.now (store versions.old lists.old) }
    ensures versions { versions.new ≡ (change_leaves masks.now (store versions.old lists.old)).versions }
    ensures lists { lists.new ≡ (change_leaves masks.now (store versions.old lists.old)).lists }
{
    let newest = newest_kept(versions, lists).ok_or(Refusal::WeekStore)?;
    if !list_keeps(masks) {
        return Err(Refusal::WeekList);
    }
    let next = newest.checked_add(1).ok_or(Refusal::WeekList)?;
    put_version(next, masks, versions, lists);
    Ok(next)
}
