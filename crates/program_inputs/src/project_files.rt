//! The file of a project: made, opened, and given back.
//!
//! A command that names a file asks for its disk, founds a project in it or opens the one that it has, works on that,
//! and gives the disk back:
//!
//! ```text
//! let book = open_project(alloc, &mut disks, "news.book")?;
//! ..
//! give_project_back(&mut disks, "news.book", book);
//! ```
//!
//! A command that only reads looks at the file as it stands, by [`look_at_project`], and gives nothing back. No file comes to
//! be but by [`found_project`] and [`make_file`].
//!
//! What a file holds of a project is defined in `specs/ProjectFiles/ProjectFiles.antt`.
mod files;
mod named;

pub use crate::project_files::named::{
    found_project, give_project_back, look_at_project, make_file, open_project,
};
