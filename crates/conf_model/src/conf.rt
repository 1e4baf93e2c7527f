//! A configuration and what it answers.
ghost use Rattle.std.specs.Prelude.{◌≡◌, ◌≤◌, ◌<◌, length, slice_get, IfSome, option_map, bytes_eq, count_by, nat_eq, nat_lt, take, Ok};
ghost use Rattle.std.specs.Option.{option_copied};
ghost use Rattle.std.specs.List.{position_from};
ghost use Rattle.conf_model.specs.ConfOf.{conf_of};
ghost use Rattle.conf_model.specs.ConfText.{conf_text};
ghost use Rattle.conf_model.specs.Kept.{IsKept};
ghost use Rattle.conf_model.specs.Lookups.{relation_named, relation_name, relation_role, is_equivalence, relation_admits, relation_admits_first, roles_of, role_named, role_name, role_least, role_most, role_admits, attribute_named, attribute_name, values_of, value_named, targets_admit, attribute_admits, overlap_allowed, usable_in, category_of, categories_of};
ghost use Rattle.conf_model.specs.Sound.{IsSound};

use crate::admission::{admits, admits_relation, relation_admits, relation_admits_first};
use crate::overlap_line::{is_apart, some_line_allows};
use crate::{Alternatives, AttrTarget, AttributeType, Overlap, RelationType, Role, Roles};
use mark_base::{AttrId, Name, OvlKind, RelId, TypeId};
use std::marker::Model;
use type_hierarchy::{TypeRow, Types};

/// The configuration of a project. Contracts see it as a record of its tables.
#[derive(Drop)]
pub struct Conf {
    types: Types,
    roles: Vec<Roles>,
    relations: Vec<RelationType>,
    attributes: Vec<AttributeType>,
    overlaps: Vec<Overlap>,
}

impl Model for Conf {
    ghost use Rattle.conf_model.specs.Configurations.{Configuration, configuration_code};
    ghost use Rattle.conf_model.specs.Kept.{IsKept};

    ghost Value = { Configuration };

    ghost coded = { configuration_code };

    ghost view = { λ conf. record { types = conf.types; roles = conf.roles.items; relations = conf.relations.items; attributes = conf.attributes.items; overlaps = conf.overlaps.items } };

    ghost invariant = { λ conf. IsKept (record { types = conf.types; roles = conf.roles.items; relations = conf.relations.items; attributes = conf.attributes.items; overlaps = conf.overlaps.items }) };
}

/// How many of at most 63 usable types annotations may have.
fn usable_in(rows: &[TypeRow]) -> u8
    requires { usable_in rows.now ≤ 63 }
    ensures { result ≡ usable_in rows.now }
{
    rows.iter().filter(|row| row.usable).count() as u8
}

/// The place of the relation type of a name.
fn relation_place(relations: &[RelationType], name: &Name) -> Option<usize>
    ensures value { result ≡ position_from (λ relation. bytes_eq relation.name name.now) 0 relations.now }
    ensures within { IfSome result (λ place. place < length relations.now) }
{
    relations.iter().position(|relation| relation.name == *name)
}

/// The place of the role of a name.
fn role_place(roles: &[Role], name: &Name) -> Option<usize>
    ensures value { result ≡ position_from (λ role. bytes_eq role.name name.now) 0 roles.now }
    ensures within { IfSome result (λ place. place < length roles.now) }
{
    roles.iter().position(|role| role.name == *name)
}

/// The place of the attribute of a name.
fn attribute_place(attributes: &[AttributeType], name: &Name) -> Option<usize>
    ensures value { result ≡ position_from (λ attribute. bytes_eq attribute.name name.now) 0 attributes.now }
    ensures within { IfSome result (λ place. place < length attributes.now) }
{
    attributes
        .iter()
        .position(|attribute| attribute.name == *name)
}

/// The place of a value.
fn value_place(values: &[Name], name: &Name) -> Option<usize>
    ensures value { result ≡ position_from (λ value. bytes_eq value name.now) 0 values.now }
    ensures within { IfSome result (λ place. place < length values.now) }
{
    values.iter().position(|value| *value == *name)
}

impl Conf {
    /// The configuration of these tables. The roles of a type stand at its place.
    pub fn of(
        types: Types,
        roles: Vec<Roles>,
        relations: Vec<RelationType>,
        attributes: Vec<AttributeType>,
        overlaps: Vec<Overlap>,
    ) -> Conf
        requires { IsKept (record { types = types; roles = roles.items; relations = relations.items; attributes = attributes.items; overlaps = overlaps.items }) }
        ensures { result ≡ record { types = types; roles = roles.items; relations = relations.items; attributes = attributes.items; overlaps = overlaps.items } }
    {
        Conf {
            types,
            roles,
            relations,
            attributes,
            overlaps,
        }
    }

    /// The canonical text of a configuration is read as that configuration, and the configuration is sound.
    pub fn reads_back(&self)
        ensures again { conf_of (conf_text self.now) ≡ Ok self.now }
        ensures sound { IsSound self.now }
    {
        let _types = &self.types;
    }

    /// The entity types and then the event types, each in the order of lines.
    pub fn types(&self) -> &Types
        ensures { result.now ≡ self.now.types }
    {
        &self.types
    }

    /// The relation types.
    pub fn relations(&self) -> &[RelationType]
        ensures { result.now ≡ self.now.relations }
    {
        self.relations.as_slice()
    }

    /// The attributes.
    pub fn attributes(&self) -> &[AttributeType]
        ensures { result.now ≡ self.now.attributes }
    {
        self.attributes.as_slice()
    }

    /// The lines that allow overlaps.
    pub fn overlaps(&self) -> &[Overlap]
        ensures { result.now ≡ self.now.overlaps }
    {
        self.overlaps.as_slice()
    }

    /// The relation type of a name, or `None` where none is declared so. Cost: the number of relation
    /// types.
    pub fn relation(&self, name: &Name) -> Option<RelId>
        ensures { option_map (λ id. id.n) result ≡ relation_named self.now name.now }
    {
        match relation_place(self.relations.as_slice(), name) {
            Some(place) => Some(RelId { n: place as u16 }),
            None => None,
        }
    }

    /// The name of a relation type.
    pub fn relation_name(&self, id: RelId) -> Option<&Name>
        ensures { option_copied result ≡ relation_name self.now id.n }
    {
        let relation = self.relations.get(usize::from(id.n))?;
        Some(&relation.name)
    }

    /// The name of the first or the second role of a relation type.
    pub fn relation_role(&self, id: RelId, second: bool) -> Option<&Name>
        ensures { option_copied result ≡ relation_role self.now id.n second }
    {
        let relation = self.relations.get(usize::from(id.n))?;
        if second {
            Some(&relation.second)
        } else {
            Some(&relation.first)
        }
    }

    /// Whether a relation type is an equivalence, whose members form classes.
    pub fn is_equivalence(&self, id: RelId) -> bool
        ensures { result ≡ is_equivalence self.now id.n }
    {
        match self.relations.get(usize::from(id.n)) {
            Some(relation) => relation.equivalence,
            None => false,
        }
    }

    /// Whether some line of a relation type admits these types as its arguments. Cost: the number of
    /// named types on its lines times the depth of the tree.
    pub fn relation_admits(&self, id: RelId, first: TypeId, second: TypeId) -> bool
        ensures { result ≡ relation_admits self.now id.n first second }
    {
        relation_admits(&self.types, &self.relations, id, first, second)
    }

    /// Whether some line of a relation type admits this type as its first argument. Cost: as
    /// `relation_admits`.
    pub fn relation_admits_first(&self, id: RelId, first: TypeId) -> bool
        ensures { result ≡ relation_admits_first self.now id.n first }
    {
        relation_admits_first(&self.types, &self.relations, id, first)
    }

    /// The roles of a type, none where it is no event type or is out of range.
    pub fn roles(&self, event: TypeId) -> &[Role]
        ensures value { result.now ≡ roles_of self.now event.n }
        ensures few { length result.now ≤ 256 }
    {
        match self.roles.get(usize::from(event.n)) {
            Some(roles) => roles.items(),
            None => &[],
        }
    }

    /// The role of a name, or `None` where the event type declares none so.
    pub fn role(&self, event: TypeId, name: &Name) -> Option<u16>
        ensures { result ≡ role_named self.now event.n name.now }
    {
        match role_place(self.roles(event), name) {
            Some(place) => Some(place as u16),
            None => None,
        }
    }

    /// The name of a role.
    pub fn role_name(&self, event: TypeId, role: u16) -> Option<&Name>
        ensures { option_copied result ≡ role_name self.now event.n role }
    {
        let role = self.roles(event).get(usize::from(role))?;
        Some(&role.name)
    }

    /// How many roles an event type declares.
    pub fn role_count(&self, event: TypeId) -> u16
        ensures { result ≡ length (roles_of self.now event.n) }
    {
        self.roles(event).len() as u16
    }

    /// How many arguments of a role an event must have.
    pub fn role_least(&self, event: TypeId, role: u16) -> u32
        ensures { result ≡ role_least self.now event.n role }
    {
        match self.roles(event).get(usize::from(role)) {
            Some(role) => role.least,
            None => 0,
        }
    }

    /// How many arguments of a role an event may have, 4,294,967,295 where there is no bound.
    pub fn role_most(&self, event: TypeId, role: u16) -> u32
        ensures { result ≡ role_most self.now event.n role }
    {
        match self.roles(event).get(usize::from(role)) {
            Some(role) => role.most,
            None => 0,
        }
    }

    /// Whether an annotation of a type may fill a role.
    pub fn role_admits(&self, event: TypeId, role: u16, target: TypeId) -> bool
        ensures { result ≡ role_admits self.now event.n role target }
    {
        match self.roles(event).get(usize::from(role)) {
            Some(role) => admits(&self.types, &role.targets, target),
            None => false,
        }
    }

    /// The attribute of a name, or `None` where none is declared so. Cost: the number of attributes.
    pub fn attribute(&self, name: &Name) -> Option<AttrId>
        ensures { option_map (λ id. id.n) result ≡ attribute_named self.now name.now }
    {
        match attribute_place(self.attributes.as_slice(), name) {
            Some(place) => Some(AttrId { n: place as u16 }),
            None => None,
        }
    }

    /// The name of an attribute.
    pub fn attribute_name(&self, id: AttrId) -> Option<&Name>
        ensures { option_copied result ≡ attribute_name self.now id.n }
    {
        let attribute = self.attributes.get(usize::from(id.n))?;
        Some(&attribute.name)
    }

    /// The values of an attribute, none where it is true by presence or is out of range.
    fn values(&self, id: AttrId) -> &[Name]
        ensures value { result.now ≡ values_of self.now id.n }
        ensures few { length result.now ≤ 256 }
    {
        match self.attributes.get(usize::from(id.n)) {
            Some(attribute) => attribute.values.items(),
            None => &[],
        }
    }

    /// The value of a name, or `None` where the attribute declares none so.
    pub fn value(&self, id: AttrId, name: &Name) -> Option<u16>
        ensures { result ≡ value_named self.now id.n name.now }
    {
        match value_place(self.values(id), name) {
            Some(place) => Some(place as u16),
            None => None,
        }
    }

    /// The name of a value.
    pub fn value_name(&self, id: AttrId, value: u16) -> Option<&Name>
        ensures { option_copied result ≡ slice_get (values_of self.now id.n) value }
    {
        self.values(id).get(usize::from(value))
    }

    /// How many values an attribute declares, 0 where it is true by presence.
    pub fn value_count(&self, id: AttrId) -> u16
        ensures { result ≡ length (values_of self.now id.n) }
    {
        self.values(id).len() as u16
    }

    /// Whether an attribute may be set on an annotation of a type, or on a relation of a relation type.
    pub fn attribute_admits(&self, id: AttrId, target: AttrTarget) -> bool
        ensures { result ≡ attribute_admits self.now id.n target }
    {
        match self.attributes.get(usize::from(id.n)) {
            Some(attribute) => self.targets_admit(&attribute.targets, target),
            None => false,
        }
    }

    /// Whether alternatives admit what an attribute is set on.
    fn targets_admit(&self, targets: &Alternatives, target: AttrTarget) -> bool
        ensures { result ≡ targets_admit self.now targets.now target }
    {
        match target {
            AttrTarget::Bound(id) => admits(&self.types, targets, id),
            AttrTarget::Between(id) => {
                usize::from(id.n) < self.relations.len() && admits_relation(targets, id)
            }
        }
    }

    /// Whether two spans of these types may overlap so: where they are apart, where no line speaks of
    /// overlaps, or where some line allows it, either way round. A type out of range may not.
    pub fn overlap_allowed(&self, a: TypeId, b: TypeId, kind: OvlKind) -> bool
        ensures { result ≡ overlap_allowed self.now a b kind }
    {
        let count = usize::from(self.types.count());
        if usize::from(a.n) >= count || usize::from(b.n) >= count {
            return false;
        }
        if is_apart(kind) || self.overlaps.is_empty() {
            return true;
        }
        some_line_allows(&self.types, self.overlaps.as_slice(), a, b, kind)
    }

    /// Whether every overlap of spans is allowed, since no line speaks of overlaps.
    pub fn allows_every_overlap(&self) -> bool
        ensures { result ≡ nat_eq (length self.now.overlaps) 0 }
    {
        self.overlaps.is_empty()
    }

    /// The category of a type in tables of agreement, from 1 in the order of the usable types; 0 where
    /// annotations may not have the type. Cost: the number of types.
    #[tactic(auto, using(crate::proofs::CategoryLemmas::count_by_take))]
    pub fn category(&self, id: TypeId) -> u8
        ensures { result ≡ category_of self.now id }
    {
        match self.types.row(id) {
            Some(row) => {
                if row.usable {
                    usable_in(&self.types.rows()[..usize::from(id.n)]) + 1
                } else {
                    0
                }
            }
            None => 0,
        }
    }

    /// How many categories there are, that of a token without a label among them. Cost: the number of
    /// types.
    pub fn categories(&self) -> u8
        ensures { result ≡ categories_of self.now }
    {
        usable_in(self.types.rows()) + 1
    }
}
