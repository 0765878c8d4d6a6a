/// The least number that a program computes with, -2^59.
pub const LEAST_NUMBER: i64 = -(1 << 59);

/// The greatest number that a program computes with, 2^59 - 1.
pub const GREATEST_NUMBER: i64 = (1 << 59) - 1;
