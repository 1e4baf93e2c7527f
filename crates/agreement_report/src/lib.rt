//! The agreement tables as CSV: a line for each two raters, and one for all of them.
//!
//! [`pairs_csv`] and [`alpha_csv`] write the lines that the tables of `kappa_alpha` give. A figure
//! is written as its two whole numbers, not reduced, and with four decimals cut towards zero by
//! [`decimals`].
//!
//! ```text
//! first,second,units,agreed,top,bottom,kappa
//! ann,bob,4,3,4,8,0.5000
//! ann,cid,0,0,0,0,undefined
//! ```
#![tactic(auto)]

mod figure;
mod report;
mod worked_decimals;

pub use figure::decimals;
pub use report::{alpha_csv, pairs_csv};
pub use worked_decimals::examples_of_decimals;
