/// A figure as a fraction of whole numbers, not reduced. Its bottom is never 0.
#[derive(Clone, Copy, Debug, PartialEq, Eq)]
pub struct Fraction {
    pub top: i128,
    pub bottom: i128,
}

/// The agreement of two raters.
#[derive(Clone, Copy, Debug, PartialEq, Eq)]
pub struct PairLine {
    /// The number of the one rater, from 0.
    pub first: u8,
    /// The number of the other.
    pub second: u8,
    /// The tokens that both label.
    pub units: u64,
    /// Those of them to which both give one label.
    pub agreed: u64,
    /// Cohen's kappa; none where chance alone would give full agreement, or no token is shared.
    pub kappa: Option<Fraction>,
}

/// The agreement of all raters.
#[derive(Clone, Copy, Debug, PartialEq, Eq)]
pub struct AlphaLine {
    /// The tokens that two raters or more label.
    pub units: u64,
    /// The labels of these tokens.
    pub values: u64,
    /// Krippendorff's alpha for nominal labels; none where no two labels could differ.
    pub alpha: Option<Fraction>,
}
