//! What a run of the program reaches.

/// What a run of the program reaches: a folder of files, the console as a link, a sink for the one line of a run that does
/// not do its job, the disks of projects by the names of their files, and the doors at which connections come in.
#[derive(Debug, Drop)]
pub struct World<F, C, P, D, O> {
    pub folder: F,
    pub console: C,
    pub complaint: P,
    pub disks: D,
    pub doors: O,
}
