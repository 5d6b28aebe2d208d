// The highest entry of a table, or the lowest value of its type where that is given and there is none. It is looked for without a branch, so that the
// compiler can compare many entries at once.
ghost use Rattle.std.specs.Prelude.{◌≡◌};
ghost use Rattle.std.specs.List.{fold};
ghost use Rattle.std.specs.Ordering.{ord_max};

pub fn highest<T: Ord + Copy>(lowest: T, numbers: &[T]) -> T
    ensures { result ≡ fold (ord_max T.cmp) lowest numbers.now }
{
    numbers.iter().fold(lowest, |high, n| high.max(*n))
}
