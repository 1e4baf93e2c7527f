//! Tests of `project_journal`: a disk that stops at each of its calls, files by their bytes, and a real file.
#![tactic(auto)]

#[cfg(test)]
mod journals;
