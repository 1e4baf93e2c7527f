//! What a run of the program reads, and what it says where it does not do its job.
//!
//! [`Folder`] gives the files that words name; `read_conf_file` and its kin read one and judge it. A [`Trouble`] is why a
//! run does not do its job, and [`end_run`] says it on a sink, with the status of the run:
//!
//! ```text
//! let conf = read_conf_file(alloc, &mut folder, "schema.conf")?;     // Err(Trouble::Conf { line: 3, what: NameTwice })
//! let status = end_run(alloc, &mut complaint, done, false);          // "conf line 3: NameTwice\n", 3
//! ```
//!
//! [`open_project`] takes the file of a project from named disks, and [`give_project_back`] gives it back;
//! [`look_at_project`] reads it as it stands.
#![tactic(auto)]

mod complaint;
mod examples;
mod files;
mod folder;
mod memory_folder;
mod project_files;
mod trouble;

pub use crate::complaint::end_run;
pub use crate::examples::examples_of_complaints;
pub use crate::files::{
    read_ann_file, read_columns_file, read_conf_file, read_roster_file, read_text_file,
};
pub use crate::folder::{Folder, FolderFault};
pub use crate::memory_folder::MemoryFolder;
pub use crate::project_files::{
    found_project, give_project_back, look_at_project, make_file, open_project,
};
pub use crate::trouble::{Trouble, with_number};
