//! Numbers as text: one to eleven digits without a leading zero, with a minus sign below zero.
ghost use Rattle.std.specs.Prelude.{◌≡◌};
ghost use Rattle.records.specs.Numbers.{Exact, Natural, number_of};

/// The number that one to eleven digits write.
fn natural(digits: &[u8]) -> Option<u64>
    ensures { Natural digits.now result }
{
    if digits.is_empty() || digits.len() > 11 {
        return None;
    }
    if let [b'0', _, ..] = digits {
        return None;
    }
    let mut n = 0;
    for d in digits {
        n = n * 10 + u64::from(char::from(*d).to_digit(10)?);
    }
    Some(n)
}

/// The number that a value writes.
pub(crate) fn number(value: &[u8]) -> Option<i64>
    ensures exact { Exact value.now result }
    ensures answer { result ≡ number_of value.now }
{
    if let [b'-', digits @ ..] = value {
        let n = natural(digits)?;
        if n == 0 {
            return None;
        }
        return Some(-(n as i64));
    }
    let n = natural(value)?;
    Some(n as i64)
}
