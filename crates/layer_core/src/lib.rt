//! The commands that change a layer within its rules.
//!
//! A [`Work`] is a well-formed layer that commands change. [`Work::apply`] carries a [`Command`]
//! out, or refuses it by the first rule that it breaks and leaves the layer as it was; [`Work::carry_out`]
//! does the same for a command that the caller keeps. What each command does is defined in
//! `specs/MadeLayers.antt`, what its own fields break in `specs/OwnRules.antt`, and what it comes to in
//! `specs/Commands.antt`. The rules are those of the crate `layer_rules`.
//!
//! ```text
//! let mut work = Work::open(alloc, layer, doc, conf)?;
//! let done = work.apply(Command::Delete { id })?;
//! ```
#![tactic(auto)]

mod attribute_value;
mod back;
mod cascade;
mod change;
mod changes;
mod command;
mod command_laws;
mod command_names;
mod command_rules;
mod first_annotation;
mod gone_laws;
mod index;
mod joined_classes;
mod joined_laws;
mod near;
mod new_numbers;
mod outcome;
mod pairs;
mod refusal;
mod removal;
mod shared;
mod taken;
mod touched_laws;
mod ways_back;
mod work;

pub use crate::back::Back;
pub use crate::command::Command;
pub use crate::command_laws::commands_keep_layers;
pub use crate::gone_laws::{what_is_parted_is_well_formed, what_none_names_can_go};
pub use crate::joined_laws::joining_breaks_the_class_made;
pub use crate::refusal::Refusal;
pub use crate::taken::{ClassGroups, Left, LeftList, Taken, TakenList};
pub use crate::touched_laws::changes_break_what_they_touch;
pub use crate::work::{Done, Work};
