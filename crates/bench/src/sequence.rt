//! A fixed sequence of numbers, which look drawn at random.

/// The number that follows.
pub fn next_number(number: u32) -> u32 {
    number.wrapping_mul(1_664_525).wrapping_add(1_013_904_223)
}
