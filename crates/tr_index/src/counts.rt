ghost use Rattle.std.specs.Prelude.{◌≡◌, ◌+◌, ◌<◌, ◌≤◌, ◌^◌};
ghost use Rattle.tr_index.specs.Counts.{bool_to_nat};

/// Counts again where one of those that are counted was or wasn't such a one, and is or isn't now.
pub fn recounted(count: usize, was: bool, is: bool) -> usize
    requires was { bool_to_nat was ≤ count }
    requires few { count < 2 ^ 63 }
    ensures { result + bool_to_nat was ≡ count + bool_to_nat is }
{
    match (was, is) {
        (true, false) => count - 1,
        (false, true) => count + 1,
        _ => count,
    }
}
