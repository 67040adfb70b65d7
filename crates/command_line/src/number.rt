//! Numbers of 1 to 10 decimal digits.
ghost use Rattle.std.specs.Prelude.{◌≡◌, MatchOption};
ghost use Rattle.std.specs.Str.Parse.{digits_value};
ghost use Rattle.command_line.specs.Rules.{IsDecimalIn};

/// The number in the range that the text writes.
pub(crate) fn decimal_in(text: &str, least: u64, most: u64) -> Option<u64>
    ensures { MatchOption result (IsDecimalIn least most text.now → ⊥)
        (λ n. IsDecimalIn least most text.now × (n ≡ digits_value 10 text.now)) }
{
    let bytes = text.as_bytes();
    if bytes.is_empty() || bytes.len() > 10 || bytes[0] == b'+' {
        return None;
    }
    let Ok(number) = text.parse::<u64>() else {
        return None;
    };
    if number < least || most < number {
        return None;
    }
    Some(number)
}
