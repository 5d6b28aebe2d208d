// Tests of limits. They are free of branches, since a line is read on after a number outside its limits.
ghost use Rattle.std.specs.Prelude.{◌≡◌};
ghost use Rattle.number_rows.specs.Code.Fences.{fence_keeps_lem};

use model::tick::Tick;

// The first fence is 0; any other is above the one before it and below the day.
pub(crate) fn fence_keeps(k: u32, before: u32, fence: u32) -> bool
    ensures { result ≡ fence_keeps_lem k before fence }
{
    if k == 0 {
        return fence == 0;
    }
    (before < fence) & (fence < Tick::DAY)
}
