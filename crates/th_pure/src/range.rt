// The integers that a variable may have.
ghost use Rattle.th_linear.specs.Forms.{Small};

/// The integers that a variable may have: those from `low` to `high`, both of a magnitude below 2^62.
#[derive(Clone, Copy, Debug)]
pub struct Range {
    /// The variable.
    pub variable: u32,
    /// The least integer that it may have.
    pub low: i128,
    /// The greatest integer that it may have.
    pub high: i128,
    ghost small_low: { Small low },
    ghost small_high: { Small high },
}
