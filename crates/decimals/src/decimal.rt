// What is kept of a coordinate.
#[derive(Clone, Copy, Debug, PartialEq, Eq)]
pub struct Decimal {
    pub mantissa: i64,
    pub exponent: i32,
}

// Digits without the zeros at their end, and how many these are.
#[derive(Clone, Copy)]
pub struct Cut {
    pub m: u64,
    pub zeros: u32,
}
