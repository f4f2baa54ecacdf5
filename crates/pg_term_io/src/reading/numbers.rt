//! Numbers of fixed width, texts, and big integers. What takes no memory gives the one answer that there is (`told`),
//! and so one that its callers may give, which take some (`given`).

ghost use Rattle.std.specs.Prelude.{◌≡◌, ◌<◌, ◌^◌, Ok, Err, MatchOption, SomeIff};
ghost use Rattle.std.specs.Int.{w8, w16, w32};
ghost use Rattle.pg_term.specs.Fault.{Gives};
ghost use Rattle.pg_term_io.specs.Numbers.{little_endian, big_value};
ghost use Rattle.pg_term_io.specs.Scanning.{ScansAs};
ghost use Rattle.pg_term_io.specs.Reading.{byte_at, number_at, bytes_at, big_at, i64_of};
ghost use Rattle.pg_term_io.specs.Reading.{text_length_at, arity_at, creation_width};

use crate::tag::{Creation, Size};
use pg_term::TermFault;

/// One byte.
pub(crate) fn u8_at(bytes: &[u8]) -> Result<(u8, &[u8]), TermFault>
    ensures told { ScansAs (λ x. (x.0, x.1.now)) result (byte_at bytes.now) }
    ensures given { Gives (λ x. (x.0, x.1.now)) result (byte_at bytes.now) }
{
    match bytes {
        [] => Err(TermFault::Truncated),
        [byte, rest @ ..] => Ok((*byte, rest)),
    }
}

/// Two bytes, the most significant first.
pub(crate) fn u16_at(bytes: &[u8]) -> Result<(u16, &[u8]), TermFault>
    ensures told { ScansAs (λ x. (x.0, x.1.now)) result (number_at w16 bytes.now) }
    ensures given { Gives (λ x. (x.0, x.1.now)) result (number_at w16 bytes.now) }
{
    let Some((digits, rest)) = bytes.split_first_chunk::<2>() else {
        return Err(TermFault::Truncated);
    };
    Ok((u16::from_be_bytes(*digits), rest))
}

/// Four bytes, the most significant first.
pub(crate) fn u32_at(bytes: &[u8]) -> Result<(u32, &[u8]), TermFault>
    ensures told { ScansAs (λ x. (x.0, x.1.now)) result (number_at w32 bytes.now) }
    ensures given { Gives (λ x. (x.0, x.1.now)) result (number_at w32 bytes.now) }
{
    let Some((digits, rest)) = bytes.split_first_chunk::<4>() else {
        return Err(TermFault::Truncated);
    };
    Ok((u32::from_be_bytes(*digits), rest))
}

/// How many bytes the text of an atom takes.
#[inline]
pub(crate) fn text_len_at(size: Size, bytes: &[u8]) -> Result<(usize, &[u8]), TermFault>
    ensures told { ScansAs (λ x. (x.0, x.1.now)) result (text_length_at size bytes.now) }
    ensures given { Gives (λ x. (x.0, x.1.now)) result (text_length_at size bytes.now) }
{
    match size {
        Size::Small => {
            let (len, rest) = u8_at(bytes)?;
            Ok((usize::from(len), rest))
        }
        Size::Large => {
            let (len, rest) = u16_at(bytes)?;
            Ok((usize::from(len), rest))
        }
    }
}

/// How many elements a tuple has.
#[inline]
pub(crate) fn arity_at(size: Size, bytes: &[u8]) -> Result<(u32, &[u8]), TermFault>
    ensures told { ScansAs (λ x. (x.0, x.1.now)) result (arity_at size bytes.now) }
    ensures given { Gives (λ x. (x.0, x.1.now)) result (arity_at size bytes.now) }
{
    match size {
        Size::Small => {
            let (arity, rest) = u8_at(bytes)?;
            Ok((u32::from(arity), rest))
        }
        Size::Large => u32_at(bytes),
    }
}

/// The creation of a pid or a reference.
#[inline]
pub(crate) fn creation_at(creation: Creation, bytes: &[u8]) -> Result<(u32, &[u8]), TermFault>
    ensures { Gives (λ x. (x.0, x.1.now)) result (number_at (creation_width creation) bytes.now) }
{
    match creation {
        Creation::Byte => match bytes {
            [] => Err(TermFault::Truncated),
            [byte, rest @ ..] => Ok((u32::from(*byte), rest)),
        },
        Creation::Word => u32_at(bytes),
    }
}

/// So many bytes.
pub(crate) fn some_bytes(count: usize, bytes: &[u8]) -> Result<(&[u8], &[u8]), TermFault>
    ensures told { ScansAs (λ x. (x.0.now, x.1.now)) result (bytes_at count bytes.now) }
    ensures given { Gives (λ x. (x.0.now, x.1.now)) result (bytes_at count bytes.now) }
{
    if bytes.len() < count {
        return Err(TermFault::Truncated);
    }
    Ok(bytes.split_at(count))
}

/// A big integer, after its tag.
#[tactic(auto, unfolding(crate::specs::Reading::big_at))]
pub(crate) fn big_at(bytes: &[u8]) -> Result<(i64, &[u8]), TermFault>
    ensures { Gives (λ x. (x.0, x.1.now)) result (big_at bytes.now) }
{
    let (count, rest) = u8_at(bytes)?;
    let (sign, rest) = u8_at(rest)?;
    let (digits, rest) = some_bytes(usize::from(count), rest)?;
    match value_of(sign, digits) {
        Some(value) => Ok((value, rest)),
        None => Err(TermFault::IntegerTooLarge),
    }
}

/// The integer of these digits, where it is one of 64 bits with a sign.
pub(crate) fn value_of(sign: u8, digits: &[u8]) -> Option<i64>
    ensures { MatchOption result
        (i64_of (big_value sign digits.now) ≡ Err TermFault.IntegerTooLarge)
        (λ z. i64_of (big_value sign digits.now) ≡ Ok z) }
{
    let magnitude = magnitude(digits)?;
    if sign == 0 {
        0_i64.checked_add_unsigned(magnitude)
    } else {
        0_i64.checked_sub_unsigned(magnitude)
    }
}

/// The number of the digits, the least significant first; `None` from 2 ^ 64 on.
fn magnitude(digits: &[u8]) -> Option<u64>
    ensures { SomeIff result (little_endian digits.now < 2 ^ 64) (little_endian digits.now) }
{
    let mut number = 0_u64;
    for place in (0..digits.len()).rev() {
        let above = number.checked_mul(256)?;
        number = above.checked_add(u64::from(digits[place]))?;
    }
    Some(number)
}
