//! Integers as decimal text.
ghost use Rattle.std.specs.Prelude.{◌≡◌, ◌↔◌, ◌-◌, ◌^◌, ◌++◌, min, None, Some, Err, IfOk, OnOk, OnErr, IsSomeAnd, FitsSigned};
ghost use Rattle.std.specs.Fmt.{signed_decimal};
ghost use Rattle.std.specs.Int.{w64};
ghost use Rattle.std.specs.Char.{is_ascii_digit};
ghost use Rattle.std.specs.List.{list_all};
ghost use Rattle.std.specs.Option.{option_map};
ghost use Rattle.leda_base.specs.Decimal.{is_digits, natural_of, integer_of};

use crate::memory::NoMemory;
use itoa::Buffer;
use thiserror::Error;

/// Why a text is no number of the range that is asked for.
#[derive(Clone, Copy, Debug, PartialEq, Eq, Error)]
pub enum NumFault {
    /// The text isn't an optional `-` and one or more digits.
    #[error("not a number")]
    NotNumber,
    /// The text is a number, and its value is outside the range.
    #[error("number out of range")]
    OutOfRange,
}

fn has_only_digits(text: &[u8]) -> bool
    ensures { result ≡ list_all is_ascii_digit text.now }
{
    text.iter().all(|byte| byte.is_ascii_digit())
}

fn are_digits(text: &[u8]) -> bool
    ensures { result ≡ is_digits text.now }
{
    !text.is_empty() && has_only_digits(text)
}

/// The number that digits write, or `u64::MAX` where it is larger. None where the text isn't one or
/// more digits.
pub fn natural_of(text: &[u8]) -> Option<u64>
    ensures { result ≡ option_map (λ n. min n (2 ^ 64 - 1)) (natural_of text.now) }
{
    if !are_digits(text) {
        return None;
    }
    let mut number = 0u64;
    for digit in text {
        let value = digit.saturating_sub(b'0');
        number = number.saturating_mul(10).saturating_add(value as u64);
    }
    Some(number)
}

/// Reads an optional `-` and one or more digits. Leading zeros are allowed, and any number of
/// digits.
///
/// # Errors
/// `NotNumber` exactly where the text isn't of this form, and else `OutOfRange` exactly where the
/// value is outside i64.
pub fn read_i64(text: &[u8]) -> Result<i64, NumFault>
    ensures form { (result ≡ Err NumFault.NotNumber) ↔ (integer_of text.now ≡ None) }
    ensures range { result ≡ Err NumFault.OutOfRange
        → IsSomeAnd (integer_of text.now) (λ z. ¬ FitsSigned w64 z) }
    ensures value { IfOk result (λ z. integer_of text.now ≡ Some z) }
{
    let value = match text {
        [b'-', digits @ ..] => {
            let magnitude = natural_of(digits).ok_or(NumFault::NotNumber)?;
            0i64.checked_sub_unsigned(magnitude)
        }
        digits => {
            let magnitude = natural_of(digits).ok_or(NumFault::NotNumber)?;
            0i64.checked_add_unsigned(magnitude)
        }
    };
    value.ok_or(NumFault::OutOfRange)
}

/// Appends the decimal text of `v`.
///
/// # Errors
/// `NoMemory` where the vector can't grow. Its bytes are then as they were.
pub fn put_i128(to: &mut Vec<u8>, v: i128) -> Result<(), NoMemory>
    ensures ok { OnOk result (to.new.items ≡ to.old.items ++ signed_decimal v) }
    ensures err { OnErr result (to.new.items ≡ to.old.items) }
{
    let mut buffer = Buffer::new();
    to.extend_from_slice(buffer.format(v).as_bytes())?;
    Ok(())
}

#[cfg(test)]
mod tests {
    use super::*;
    use std::test::Fail;

    #[test]
    fn texts_are_read_as_integers(rt: HostRuntime) {
        for (text, want) in [
            ("-0", Ok(0)),
            ("007", Ok(7)),
            ("9223372036854775807", Ok(i64::MAX)),
            ("-9223372036854775808", Ok(i64::MIN)),
            ("9223372036854775808", Err(NumFault::OutOfRange)),
            ("-9223372036854775809", Err(NumFault::OutOfRange)),
            ("18446744073709551617", Err(NumFault::OutOfRange)),
            ("", Err(NumFault::NotNumber)),
            ("-", Err(NumFault::NotNumber)),
            ("+1", Err(NumFault::NotNumber)),
            ("99999999999999999999x", Err(NumFault::NotNumber)),
        ] {
            assert_eq!(rt; read_i64(text.as_bytes()), want, "at {text}");
        }
    }

    #[test]
    fn digits_are_read_as_naturals(rt: HostRuntime) {
        for (text, want) in [
            ("007", Some(7)),
            ("18446744073709551615", Some(u64::MAX)),
            ("18446744073709551617", Some(u64::MAX)),
            ("", None),
            ("-1", None),
            ("1x", None),
        ] {
            assert_eq!(rt; natural_of(text.as_bytes()), want, "at {text}");
        }
    }

    #[test]
    fn the_least_i128_is_appended(rt: HostRuntime) -> Result<(), Fail> {
        let mut to = b"n".to_vec(rt.alloc())?;
        put_i128(&mut to, i128::MIN)?;
        let want = b"n-170141183460469231731687303715884105728";
        assert_eq!(rt; to.as_slice(), want.as_slice());
        Ok(())
    }
}
