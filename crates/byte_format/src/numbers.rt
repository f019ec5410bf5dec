ghost use Rattle.byte_format.specs.Values.{u16_field, u64_field, count_field};
ghost use Rattle.byte_format.specs.Read.{GivesExactly};

use crate::faults::{Kind, Outside};

/// The number in the first 2 bytes, and the bytes behind it.
#[tactic(auto, unfolding(crate::specs::Values::u16_field))]
pub fn read_u16(bytes: &[u8]) -> Result<(u16, &[u8]), Outside>
    ensures { GivesExactly (λ x. (x.0, x.1.now)) result (u16_field.reads bytes.now) }
{
    match bytes.split_first_chunk::<2>() {
        Some((front, rest)) => Ok((u16::from_be_bytes(*front), rest)),
        None => Err(Outside::at(Kind::Short, bytes)),
    }
}

/// The number in the first 8 bytes, and the bytes behind it.
#[tactic(auto, unfolding(crate::specs::Values::u64_field))]
pub fn read_u64(bytes: &[u8]) -> Result<(u64, &[u8]), Outside>
    ensures { GivesExactly (λ x. (x.0, x.1.now)) result (u64_field.reads bytes.now) }
{
    match bytes.split_first_chunk::<8>() {
        Some((front, rest)) => Ok((u64::from_be_bytes(*front), rest)),
        None => Err(Outside::at(Kind::Short, bytes)),
    }
}

/// The number of at least 1 in the first 8 bytes, and the bytes behind it.
#[tactic(auto, unfolding(crate::specs::Values::count_field))]
pub fn read_count(bytes: &[u8]) -> Result<(u64, &[u8]), Outside>
    ensures { GivesExactly (λ x. (x.0, x.1.now)) result (count_field.reads bytes.now) }
{
    let (count, rest) = read_u64(bytes)?;
    if count == 0 {
        return Err(Outside::at(Kind::Zero, bytes));
    }
    Ok((count, rest))
}
