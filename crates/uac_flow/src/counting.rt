// Counts of microframes.
ghost use Rattle.std.specs.Prelude.{◌≡◌, ℕ, ◌+◌, ◌%◌, ◌==◌, ◌≤◌, ◌&&◌, nat_lt};
ghost use Rattle.uac_rate.specs.Levels.{IsInterval};
ghost use Rattle.uac_flow.specs.Flows.{kept_count};

/// The count after one more microframe. Every interval divides 8, so 8 is followed by 1.
pub(crate) fn next_count(count: u32) -> u32
    requires { count ≤ 8 }
    ensures next { (n : ℕ) → count ≡ kept_count n → result ≡ kept_count (n + 1) }
    ensures few { result ≤ 8 }
{
    if count == 8 { 1 } else { count + 1 }
}

/// Whether the next microframe is the last of a service interval.
pub(crate) fn is_due(service: u32, count: u32) -> bool
    requires serves { IsInterval service }
    requires counted { count ≤ 8 }
    ensures { (n : ℕ) → count ≡ kept_count n → result ≡ ((n + 1) % service == 0) }
{
    (count + 1) % service == 0
}

/// Whether a report falls due after so many microframes.
pub(crate) fn reports_now(period: u32, count: u32) -> bool
    requires reports { IsInterval period }
    ensures { (n : ℕ) → count ≡ kept_count n → result ≡ (nat_lt 0 n && n % period == 0) }
{
    count != 0 && count % period == 0
}
