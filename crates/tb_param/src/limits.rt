//! Counts against limits that parameters set.

ghost use Rattle.std.specs.Prelude.{◌≡◌, pos, int_lt};

/// Whether a count is more than the limit; each is more than a limit below 0.
pub fn exceeds(count: u64, limit: i64) -> bool
    ensures { result ≡ int_lt limit (pos count) }
{
    if limit < 0 {
        return true;
    }
    count > limit as u64
}

/// Whether a count is less than the limit; none is less than a limit below 0.
pub fn is_below(count: u64, limit: i64) -> bool
    ensures { result ≡ int_lt (pos count) limit }
{
    if limit < 0 {
        return false;
    }
    count < limit as u64
}
