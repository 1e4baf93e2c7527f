//! The configuration of a file without fault.
ghost use Rattle.std.specs.Prelude.{◌≡◌, ◌≤◌, length, Ok, IfOk};
ghost use Rattle.conf_model.specs.ConfOf.{configuration_of};
ghost use Rattle.annotation_conf.specs.BuildTold.{IsFaultless};

use crate::build_links::{attributes, overlaps, relations};
use crate::build_resolver::Resolver;
use crate::build_roles::roles_of_types;
use crate::build_types::{tree_of, type_rows};
use crate::faults_macros::KnownMacros;
use conf_model::{AttributeType, Conf, Overlap, RelationType, Roles};
use mark_base::Memory;
use std::alloc::Global;
use type_hierarchy::TypeRow;

/// The rows of the types.
fn all_rows(alloc: Global, text: &str, resolver: &Resolver) -> Result<Vec<TypeRow>, Memory>
    requires { IsFaultless text.now resolver.now }
    ensures rows { IfOk result (λ rows. rows.items ≡ (configuration_of resolver.now).types) }
    ensures few { IfOk result (λ rows. length rows.items ≤ 256) }
{
    let _text = text;
    let file = resolver.names().file();
    let entities = type_rows(alloc, Vec::new(alloc), false, &file.entities)?;
    let all = type_rows(alloc, entities, true, &file.events)?;
    Ok(all)
}

/// The roles of the types.
fn all_roles(alloc: Global, text: &str, resolver: &Resolver) -> Result<Vec<Roles>, Memory>
    requires { IsFaultless text.now resolver.now }
    ensures { IfOk result (λ rows. rows.items ≡ (configuration_of resolver.now).roles) }
{
    let _text = text;
    let file = resolver.names().file();
    roles_of_types(alloc, resolver, &file.entities, &file.events)
}

/// The relation types.
fn all_relations(
    alloc: Global,
    text: &str,
    resolver: &Resolver,
) -> Result<Vec<RelationType>, Memory>
    requires { IsFaultless text.now resolver.now }
    ensures { IfOk result (λ rows. rows.items ≡ (configuration_of resolver.now).relations) }
{
    let _text = text;
    relations(alloc, resolver, &resolver.names().file().relations)
}

/// The attributes.
fn all_attributes(
    alloc: Global,
    text: &str,
    resolver: &Resolver,
) -> Result<Vec<AttributeType>, Memory>
    requires { IsFaultless text.now resolver.now }
    ensures { IfOk result (λ rows. rows.items ≡ (configuration_of resolver.now).attributes) }
{
    let _text = text;
    attributes(alloc, resolver, &resolver.names().file().attributes)
}

/// The overlap lines.
fn all_overlaps(alloc: Global, resolver: &Resolver) -> Result<Vec<Overlap>, Memory>
    ensures { IfOk result (λ rows. rows.items ≡ (configuration_of resolver.now).overlaps) }
{
    overlaps(alloc, resolver, &resolver.names().file().overlaps)
}

/// The configuration of the file of a resolver.
fn build_by(alloc: Global, text: &str, resolver: &Resolver) -> Result<Conf, Memory>
    requires { IsFaultless text.now resolver.now }
    ensures { IfOk result (λ conf. conf ≡ configuration_of resolver.now) }
{
    let rows = all_rows(alloc, text, resolver)?;
    let types = tree_of(alloc, rows)?;
    let roles = all_roles(alloc, text, resolver)?;
    let relations = all_relations(alloc, text, resolver)?;
    let attributes = all_attributes(alloc, text, resolver)?;
    let overlaps = all_overlaps(alloc, resolver)?;
    Ok(Conf::of(types, roles, relations, attributes, overlaps))
}

/// The configuration of a file without fault. Cost: the number of alternatives times the logarithm of the
/// number of types, with what macros hold.
pub fn build(alloc: Global, text: &str, known: &KnownMacros) -> Result<Conf, Memory>
    requires { IsFaultless text.now known.now }
    ensures { IfOk result (λ conf. conf ≡ configuration_of known.now) }
{
    let resolver = Resolver::of(alloc, known)?;
    build_by(alloc, text, &resolver)
}
