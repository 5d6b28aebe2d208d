// The week store, over its two lent tables.
ghost use Rattle.std.specs.Prelude.{◌≡◌};
ghost use Rattle.refusals.specs.Answers.{outcome_of};
ghost use Rattle.week.specs.Store.{store};
ghost use Rattle.week.specs.Making.{new_answer, new_leaves, change_answer, change_leaves};
ghost use Rattle.week.specs.Planning.{plan_answer};
ghost use Rattle.exports.specs.Codes.{count_code};

use refusals::refusal::Refusal;
use week::making::{week_change, week_new};
use week::planning::week_plan;

// The version made, or the refusal's code.
fn made_code(made: Result<u16, Refusal>) -> u32
    ensures { result ≡ count_code (outcome_of made) }
{
    made.map_or_else(Refusal::code, u32::from)
}

#[unsafe(no_mangle)]
pub extern "C" fn exports_week_new(
    masks: &[u8],
    versions: &mut [u16; 16],
    lists: &mut [u8; 112],
) -> u32
    ensures answer { result ≡ count_code (new_answer masks.now) }
    ensures versions { versions.new ≡ (new_leaves masks.now (store versions.old lists.old)).versions }
    ensures lists { lists.new ≡ (new_leaves masks.now (store versions.old lists.old)).lists }
{
    made_code(week_new(masks, versions, lists))
}

#[unsafe(no_mangle)]
pub extern "C" fn exports_week_change(
    masks: &[u8],
    versions: &mut [u16; 16],
    lists: &mut [u8; 112],
) -> u32
    ensures answer { result ≡ count_code (change_answer masks.now (store versions.old lists.old)) }
    ensures versions { versions.new ≡ (change_leaves masks.now (store versions.old lists.old)).versions }
    ensures lists { lists.new ≡ (change_leaves masks.now (store versions.old lists.old)).lists }
{
    made_code(week_change(masks, versions, lists))
}

// The place of the day's plan, or the refusal's code.
#[unsafe(no_mangle)]
pub extern "C" fn exports_week_plan(
    versions: &[u16; 16],
    lists: &[u8; 112],
    version: u32,
    day: u32,
) -> u32
    ensures { result ≡ count_code (plan_answer (store versions.now lists.now) version day) }
{
    week_plan(versions, lists, version, day).unwrap_or_else(Refusal::code)
}
