//! Numbers as a text has them, within limits.
ghost use Rattle.std.specs.Prelude.{◌≡◌, ◌≤◌, pos, IfSome};
ghost use Rattle.ledger.specs.Ranges.{in_range, in_range_either_way};

/// The number of a thing, where it lies from `low` to `high`.
pub fn number_in(value: i64, low: u16, high: u16) -> Option<u16>
    ensures value { result ≡ in_range low high value }
    ensures inside { IfSome result (λ n. (low ≤ n) × (n ≤ high) × (value ≡ pos n)) }
{
    let n = quantity_in(value, u64::from(low), u64::from(high))?;
    Some(n as u16)
}

/// The quantity, where it lies from `low` to `high`.
pub fn quantity_in(value: i64, low: u64, high: u64) -> Option<u64>
    ensures value { result ≡ in_range low high value }
    ensures inside { IfSome result (λ n. (low ≤ n) × (n ≤ high) × (value ≡ pos n)) }
{
    let n = u64::try_from(value).ok()?;
    (low..=high).contains(&n).then_some(n)
}

/// The factor, where it is at most `most` either way.
pub fn factor_in(value: i64, most: u64) -> Option<i64>
    ensures { result ≡ in_range_either_way most value }
{
    (value.unsigned_abs() <= most).then_some(value)
}
