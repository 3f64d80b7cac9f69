//! Counts that rise by one and stand still at their type's end.
ghost use Rattle.std.specs.Prelude.{◌≡◌, ◌≤◌};
ghost use Rattle.mz_base.specs.Causes.{Rose, next_count};

/// The count after one more.
pub fn raised(count: u64) -> u64
    ensures next { result ≡ next_count count }
    ensures rose { Rose count result }
    ensures later { count ≤ result }
{
    count.saturating_add(1)
}
