//! Decimal numbers.
ghost use Rattle.std.specs.Prelude.{◌≡◌, ◌^◌, ◌<◌, ◌≤◌, length, Some, None, IfSome, if◌then◌else◌};
ghost use Rattle.std.specs.Char.{is_ascii_digit};
ghost use Rattle.std.specs.List.{list_all};
ghost use Rattle.std.specs.Str.Parse.{digits_value};

/// Returns whether all bytes are ASCII digits; true also for an empty string.
pub fn is_digits(text: &str) -> bool
    ensures { result ≡ list_all is_ascii_digit text.now }
{
    text.as_bytes().iter().all(|byte| byte.is_ascii_digit())
}

/// Returns the value of decimal digits, or `None` if a byte is not an ASCII digit.
///
/// The value of an empty slice is 0.
#[tactic(auto, using(crate::proofs::Powers::power_below))]
pub fn digits_value(digits: &[u8]) -> Option<u32>
    requires { length digits.now ≤ 9 }
    ensures value { result
        ≡ (if list_all is_ascii_digit digits.now then Some (digits_value 10 digits.now) else None) }
    ensures bound { IfSome result (λ n. n < 10 ^ length digits.now) }
{
    let mut value = 0;
    for digit in digits {
        if !digit.is_ascii_digit() {
            return None;
        }
        value = value * 10 + u32::from(*digit - b'0');
    }
    Some(value)
}
