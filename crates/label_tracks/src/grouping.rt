//! The groups of types that agreement counts as one label.
ghost use Rattle.std.specs.Prelude.{◌≡◌, ℕ, ◌<◌, ◌≤◌, IfOk, length, map, slice_index};
ghost use Rattle.std.specs.List.{range_with_len};
ghost use Rattle.label_tracks.specs.Levels.{AreGroups, group_at, grouping_of, heads};

use crate::levels::{group_number, heads, rolled};
use conf_model::Conf;
use mark_base::{Memory, TypeId};
use std::alloc::Global;
use std::marker::Model;
use type_hierarchy::Types;

/// The label of each type of a configuration in tables of agreement, at a level of its tree of types.
///
/// The types that annotations may have count as their ancestors at the level, and the different ones
/// that come of it are numbered from 1 in the order of the types. It takes one byte a type.
#[derive(Drop)]
pub struct Groups {
    level: u8,
    groups: Vec<u8>,
    width: u8,
}

impl Model for Groups {
    ghost use Rattle.std.specs.Prelude.{◌≤◌, ◌<◌, ℕ, length, slice_index};
    ghost use Rattle.label_tracks.specs.Levels.{AreGroups, Grouping};

    ghost Value = { Grouping };

    ghost view = { λ groups. record { level = groups.level; groups = groups.groups.items; width = groups.width } };

    ghost invariant = { λ groups. AreGroups groups.groups.items groups.width };
}

/// The group of a type, by the types that are numbered at the level.
#[tactic(auto, unfolding(crate::specs::Levels::group_at))]
fn group_of(types: &Types, numbered: &[u16], place: u16, level: u8) -> u8
    requires few { length numbered.now ≤ 63 }
    requires heads { numbered.now ≡ heads types.now level }
    ensures { result ≡ group_at types.now level place }
{
    match types.row(TypeId { n: place }) {
        Some(row) => {
            if row.usable {
                group_number(numbered, rolled(types, place, level))
            } else {
                0
            }
        }
        None => 0,
    }
}

/// The groups of all types, in their order.
fn all_groups(alloc: Global, types: &Types, numbered: &[u16], level: u8) -> Result<Vec<u8>, Memory>
    requires few { length numbered.now ≤ 63 }
    requires heads { numbered.now ≡ heads types.now level }
    ensures { IfOk result (λ groups. groups.items ≡ map (group_at types.now level) (range_with_len 0 (length types.now))) }
{
    let mut groups = Vec::new(alloc);
    for place in 0..types.count() {
        groups.push(group_of(types, numbered, place, level))?;
    }
    Ok(groups)
}

impl Groups {
    /// The groups of the types of a configuration at a level, which counts ancestors: 0 is that of the
    /// topmost types, and 255 is none, at which each type is its own. Cost: the number of types times
    /// that of the usable ones, and times the depth of the tree.
    pub fn of(alloc: Global, conf: &Conf, level: u8) -> Result<Groups, Memory>
        ensures level { IfOk result (λ groups. groups.level ≡ level) }
        ensures groups { IfOk result (λ groups. groups ≡ grouping_of conf.now.types groups.level) }
    {
        let types = conf.types();
        let numbered = heads(alloc, types, level)?;
        let groups = all_groups(alloc, types, numbered.as_slice(), level)?;
        Ok(Groups {
            level,
            groups,
            width: numbered.len() as u8 + 1,
        })
    }

    /// The label of a type: 0 where annotations may not have the type, or where it is out of range.
    pub fn group(&self, id: TypeId) -> u8
        ensures group { result ≡ slice_index self.now.groups id.n }
        ensures below { result < self.now.width }
    {
        match self.groups.get(usize::from(id.n)) {
            Some(group) => *group,
            None => 0,
        }
    }

    /// How many labels there are, from 1 to 64: that of a token that no span covers among them.
    pub fn width(&self) -> u8
        ensures width { result ≡ self.now.width }
        ensures some { 1 ≤ self.now.width }
        ensures few { self.now.width ≤ 64 }
    {
        let _groups = &self.groups;
        self.width
    }

    /// Tells a proof what all groups keep. It does nothing.
    pub fn keeps(&self)
        ensures { AreGroups self.now.groups self.now.width }
    {
        let _groups = &self.groups;
    }
}
