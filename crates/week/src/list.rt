// A list of masks, one for each plan, and the place of a day's plan in it.
ghost use Rattle.std.specs.Prelude.{◌≡◌, ◌<◌};
ghost use Rattle.week.specs.WeekList.{weekdays, list_keeps_lem, place_of_lem};

pub(crate) const WEEKDAYS: usize = 7;

pub(crate) const ALL_DAYS: u8 = 127;

// Every weekday stands in exactly one mask: together the masks have all seven days, and their ones make seven.
pub(crate) fn list_keeps(masks: &[u8]) -> bool
    ensures { result ≡ list_keeps_lem masks.now }
{
    if masks.is_empty() || WEEKDAYS < masks.len() {
        return false;
    }
    let mut together = 0;
    let mut ones = 0;
    for &mask in masks {
        if mask == 0 || ALL_DAYS < mask {
            return false;
        }
        together |= mask;
        ones += u8::count_ones(mask);
    }
    if together != ALL_DAYS {
        return false;
    }
    ones == WEEKDAYS as u32
}

// The first place whose mask has the day, or the number of masks where none has it.
pub(crate) fn place_of(masks: &[u8], day: u32) -> usize
    requires { day < weekdays }
    ensures { result ≡ place_of_lem day masks.now }
{
    masks
        .iter()
        .position(|mask| (*mask >> day) & 1 == 1)
        .unwrap_or(masks.len())
}
