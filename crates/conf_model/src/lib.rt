//! What an annotation.conf declares: the entity types, relation types, event types and attributes of a project.
//!
//! A [`Conf`] answers what is declared and what may stand where. The crate `annotation_conf` reads one from a
//! file and writes it back; whoever only asks one stands on this crate alone.
//!
//! ```text
//! let knows = conf.relation(&Name::new(alloc, "Knows")?);
//! conf.relation_admits(knows, person, person);
//! ```
//!
//! What a configuration is stands in `specs/Configurations.antt`, what it answers in `Lookups.antt`, and what
//! each one keeps in `Kept.antt`: that it is sound (`Sound.antt`), and that its canonical text (`ConfText.antt`)
//! is read as it (`ConfOf.antt`).
#![tactic(auto)]

mod admission;
mod alternatives;
mod attr_target;
mod attribute_type;
mod conf;
mod conf_fault;
mod overlap_line;
mod relation_type;
mod role;
mod shared_values;

pub use crate::alternatives::{Alternatives, Places};
pub use crate::attr_target::AttrTarget;
pub use crate::attribute_type::{AttributeType, Values};
pub use crate::conf::Conf;
pub use crate::conf_fault::{ConfFault, ConfWhat};
pub use crate::overlap_line::Overlap;
pub use crate::relation_type::{ArgumentLines, Arguments, RelationType};
pub use crate::role::{Role, Roles};
