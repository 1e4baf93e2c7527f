//! The roles of event types and the arguments of relation types.
ghost use Rattle.std.specs.Prelude.{◌≡◌, ◌++◌, [], None, All, map, IfOk, unwrap_or};
ghost use Rattle.mark_base.specs.Names.{name_fault};
ghost use Rattle.conf_model.specs.ConfPairs.{count_of};
ghost use Rattle.conf_model.specs.ConfOf.{role_of, arguments_of};
ghost use Rattle.annotation_conf.specs.FileShows.{seen_pair};
ghost use Rattle.annotation_conf.specs.CountShows.{seen_count};
ghost use Rattle.annotation_conf.specs.BuildTold.{roles_kept, AreRolesNamed, HasRolesNamed};

use crate::build_resolver::Resolver;
use crate::count::{Count, count_of};
use crate::file::TypeLine;
use crate::pieces::RolePair;
use conf_model::{Arguments, Role, Roles};
use mark_base::{Memory, Name, NameFault};
use std::alloc::Global;

/// The name of a text that is one, as each is in a file without fault.
pub fn name_of(alloc: Global, text: &str) -> Result<Name, Memory>
    requires { name_fault text.now ≡ None }
    ensures { IfOk result (λ name. name ≡ text.now) }
{
    match Name::new(alloc, text) {
        Ok(name) => Ok(name),
        Err(NameFault::Memory) => Err(Memory),
        Err(NameFault::Empty) => unreachable!(),
        Err(NameFault::TooLong) => unreachable!(),
        Err(NameFault::BadChar(_)) => unreachable!(),
    }
}

/// The count of a mark, of which each is one.
fn count_or_one(mark: &[char]) -> Count
    ensures { seen_count result ≡ unwrap_or (count_of mark.now) (record { least = 1; most = 1 }) }
{
    match count_of(mark) {
        Some(count) => count,
        None => Count { least: 1, most: 1 },
    }
}

/// A role of an event type.
fn role(alloc: Global, resolver: &Resolver, pair: &RolePair) -> Result<Role, Memory>
    requires { name_fault pair.now.role ≡ None }
    ensures { IfOk result (λ role. role ≡ role_of resolver.now (seen_pair pair.now)) }
{
    let count = count_or_one(&pair.mark);
    let targets = resolver.resolved(alloc, false, &pair.alternatives)?;
    Ok(Role {
        name: name_of(alloc, pair.role.text())?,
        least: count.least,
        most: count.most,
        targets,
    })
}

/// The roles of an event type.
fn roles(alloc: Global, resolver: &Resolver, pairs: &[RolePair]) -> Result<Roles, Memory>
    requires { AreRolesNamed pairs.now }
    ensures { IfOk result (λ roles. roles ≡ map (λ pair. role_of resolver.now (seen_pair pair)) pairs.now) }
{
    let mut roles = Vec::new(alloc);
    for pair in pairs {
        roles.push(role(alloc, resolver, pair)?)?;
    }
    Ok(Roles::from_vec(roles))
}

/// The roles of entity types: none.
fn no_roles(alloc: Global, lines: &[TypeLine]) -> Result<Vec<Roles>, Memory>
    ensures { IfOk result (λ rows. rows.items ≡ map (λ line. []) lines.now) }
{
    let mut rows = Vec::new(alloc);
    for _line in lines {
        rows.push(Roles::from_vec(Vec::new(alloc)))?;
    }
    Ok(rows)
}

/// The roles of an event type by its line.
#[tactic(auto, unfolding(crate::specs::BuildTold::roles_kept))]
fn line_roles(alloc: Global, resolver: &Resolver, line: &TypeLine) -> Result<Roles, Memory>
    requires { HasRolesNamed line.now }
    ensures { IfOk result (λ roles. roles ≡ roles_kept resolver.now line.now) }
{
    roles(alloc, resolver, &line.pieces.pairs)
}

/// The roles of event types behind others.
fn event_roles(
    alloc: Global,
    resolver: &Resolver,
    mut rows: Vec<Roles>,
    lines: &[TypeLine],
) -> Result<Vec<Roles>, Memory>
    requires { All HasRolesNamed lines.now }
    ensures { IfOk result (λ all. all.items ≡ rows.items ++ map (roles_kept resolver.now) lines.now) }
{
    for line in lines {
        rows.push(line_roles(alloc, resolver, line)?)?;
    }
    Ok(rows)
}

/// The roles of entity types and of event types.
pub fn roles_of_types(
    alloc: Global,
    resolver: &Resolver,
    entities: &[TypeLine],
    events: &[TypeLine],
) -> Result<Vec<Roles>, Memory>
    requires { All HasRolesNamed events.now }
    ensures { IfOk result (λ rows. rows.items ≡ map (λ line. []) entities.now ++ map (roles_kept resolver.now) events.now) }
{
    let rows = no_roles(alloc, entities)?;
    event_roles(alloc, resolver, rows, events)
}

/// The two arguments of a line.
pub fn arguments(
    alloc: Global,
    resolver: &Resolver,
    pairs: &[RolePair],
) -> Result<Arguments, Memory>
    ensures { IfOk result (λ arguments. arguments ≡ arguments_of resolver.now (map seen_pair pairs.now)) }
{
    match pairs {
        [first, second, ..] => Ok(Arguments {
            first: resolver.resolved(alloc, false, &first.alternatives)?,
            second: resolver.resolved(alloc, false, &second.alternatives)?,
        }),
        _ => Ok(Arguments {
            first: resolver.resolved(alloc, false, &[])?,
            second: resolver.resolved(alloc, false, &[])?,
        }),
    }
}
