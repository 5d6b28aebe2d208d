// The store of the last 16 versions: which version stands in which slot, whether the store is a good one, and a version put into its slot.
ghost use Rattle.std.specs.Prelude.{◌≡◌, ◌&&◌, cond, eqb, Some, None, ◌*◌, ◌≤◌, ◌<◌, length, get_or, take, set};
ghost use Rattle.week.specs.WeekList.{weekdays, all_days, total, list_keeps_lem};
ghost use Rattle.week.specs.Store.{store, slots, slot_of_lem, trimmed, masks_in_lem, list_in_lem, greatest, newest_of_lem, last_in_lem, store_keeps, row as row_of, with_list};

use crate::list::{ALL_DAYS, WEEKDAYS};

pub const SLOTS: usize = 16;
// Seven for each slot.
pub const MASKS: usize = 112;

// The slot of a version; there is no version 0.
pub(crate) fn slot_of(version: u16) -> usize
    requires { 0 < version }
    ensures value { result ≡ slot_of_lem version }
    ensures upper_bound { result < slots }
{
    (version as usize - 1) % SLOTS
}

// ---- The lists

// `slot < slots` and `length masks.now ≤ weekdays` stay clauses: each bounds one number, and a type for it would be opened at each use.

// The seven masks of a slot.
fn masks_in(lists: &[u8], slot: usize) -> &[u8]
    requires slot_lt_slots { slot < slots }
    requires lists_len { length lists.now ≡ slots * weekdays }
    ensures { result.now ≡ masks_in_lem lists.now slot }
{
    let start = slot * WEEKDAYS;
    let end = start + WEEKDAYS;
    &lists[start..end]
}

// How many masks there are less the zeros at their end.
fn list_length(masks: &[u8]) -> usize
    ensures upper_bound { result ≤ length masks.now }
    ensures masks_value { take result masks.now ≡ trimmed masks.now }
{
    masks
        .iter()
        .rposition(|mask| *mask != 0)
        .map_or(0, |last| last + 1)
}

pub(crate) fn list_in(lists: &[u8], slot: usize) -> &[u8]
    requires slot_lt_slots { slot < slots }
    requires lists_len { length lists.now ≡ slots * weekdays }
    ensures { result.now ≡ list_in_lem lists.now slot }
{
    let masks = masks_in(lists, slot);
    let count = list_length(masks);
    &masks[..count]
}

fn sum_of(masks: &[u8]) -> u32
    requires { length masks.now ≤ weekdays }
    ensures { result ≡ total (λ mask. mask) 0 masks.now }
{
    masks.iter().map(|mask| u32::from(*mask)).sum()
}

// Masks that have all seven days together have each of them once exactly if they add up to all days.
fn add_up(together: u8, sum: u32) -> bool
    ensures { result ≡ (eqb together all_days && eqb sum all_days) }
{
    together == ALL_DAYS && sum == ALL_DAYS as u32
}

// Whether the list in the masks of a slot keeps the rules. It is the test of a given list in fewer steps, for the 16 lists of a store: the masks are added up,
// and their ones not counted. Where the masks before the first 0 have all days, they alone make the sum, and so no mask stands behind it.
fn stored_keeps(masks: &[u8]) -> bool
    requires { length masks.now ≤ weekdays }
    ensures { result ≡ list_keeps_lem (trimmed masks.now) }
{
    let sum = sum_of(masks);
    let mut together = 0;
    for &mask in masks {
        if mask == 0 {
            return add_up(together, sum);
        }
        together |= mask;
    }
    add_up(together, sum)
}

// A list's mask at a place, and 0 behind its last.
fn mask_at(masks: &[u8], place: usize) -> u8
    ensures { result ≡ get_or masks.now place 0 }
{
    if place < masks.len() { masks[place] } else { 0 }
}

// The list's masks, and zeros behind them. Each place is written once: for a slice's copy an archive for C needs memmove.
fn put_row(masks: &[u8], row: &mut [u8])
    requires masks_len_bound { length masks.now ≤ weekdays }
    requires row_len { length row.old ≡ weekdays }
    ensures { row.new ≡ row_of masks.now }
{
    for place in 0..row.len() {
        row[place] = mask_at(masks, place);
    }
}

fn put_list(masks: &[u8], slot: usize, lists: &mut [u8])
    requires slot_lt_slots { slot < slots }
    requires masks_len_bound { length masks.now ≤ weekdays }
    requires lists_len { length lists.old ≡ slots * weekdays }
    ensures { lists.new ≡ with_list slot masks.now lists.old }
{
    let start = slot * WEEKDAYS;
    let end = start + WEEKDAYS;
    put_row(masks, &mut lists[start..end]);
}

// ---- The versions

fn newest_of(versions: &[u16]) -> u16
    ensures { result ≡ greatest versions.now }
{
    versions
        .iter()
        .fold(0, |newest, version| newest.max(*version))
}

// The last version up to the newest whose slot this is, or 0 where no version has come to this slot yet.
fn last_in(newest: u16, slot: usize) -> u16
    ensures { result ≡ last_in_lem newest slot }
{
    if slot < newest as usize {
        return newest - (newest - 1 - slot as u16) % SLOTS as u16;
    }
    0
}

// The newest version of a good store. The two tables stay apart: C lends them apart, and below the operations this alone reads both and `put_version` alone writes both.
pub(crate) fn newest_kept(versions: &[u16; SLOTS], lists: &[u8; MASKS]) -> Option<u16>
    ensures { result ≡ cond (store_keeps (store versions.now lists.now)) (Some (newest_of_lem (store versions.now lists.now))) None }
{
    let newest = newest_of(versions);
    if newest == 0 {
        return None;
    }
    for (slot, &version) in versions.iter().enumerate() {
        if version != last_in(newest, slot) {
            return None;
        }
        if version != 0 && !stored_keeps(masks_in(lists, slot)) {
            return None;
        }
    }
    Some(newest)
}

// Puts a version into its slot, and touches no other.
pub(crate) fn put_version(
    version: u16,
    masks: &[u8],
    versions: &mut [u16; SLOTS],
    lists: &mut [u8; MASKS],
)
    requires version_nonzero { 0 < version }
    requires masks_len_bound { length masks.now ≤ weekdays }
    ensures versions { versions.new ≡ set versions.old (slot_of_lem version) version }
    ensures lists { lists.new ≡ with_list (slot_of_lem version) masks.now lists.old }
{
    let slot = slot_of(version);
    versions[slot] = version;
    put_list(masks, slot, lists);
}
