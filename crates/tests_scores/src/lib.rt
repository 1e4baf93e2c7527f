//! Tests of calls of `match_scores`, `content_keys` and `unanimous_merge` that no command makes, on layers that are read from
//! .ann files. The condition of these calls is that the layers are well-formed, which the reader shows.
#![tactic(auto)]

#[cfg(test)]
mod contents;
#[cfg(test)]
mod files;
#[cfg(test)]
mod shared;
#[cfg(test)]
mod withdrawals;
