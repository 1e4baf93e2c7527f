//! Alternatives by the places of what they hold.
ghost use Rattle.std.specs.Prelude.{◌≡◌, ◌≤◌, [], length, map, take, IfOk, if◌then◌else◌};
ghost use Rattle.conf_model.specs.ConfNames.{all_held};
ghost use Rattle.conf_model.specs.ConfOf.{resolved};
ghost use Rattle.annotation_conf.specs.FileShows.{seen_alternative};
ghost use Rattle.annotation_conf.specs.KnownMacros.{kinds_of};
ghost use Rattle.annotation_conf.specs.BuildPlaces.{AreTables, places_held, AreFirstPlaces};

use crate::build_places::{Table, gather_places, macro_lists};
use crate::faults_macros::{Kinds, KnownMacros, all_held};
use crate::names_by_sort::KnownNames;
use crate::pieces::Alternative;
use conf_model::{Alternatives, Places};
use mark_base::Memory;
use std::alloc::Global;
use std::marker::Model;

/// What a file declares, with the places that its macros hold. Contracts see it as the file.
#[derive(Drop)]
pub struct Resolver<'k, 'a> {
    known: &'k KnownMacros<'a>,
    types: Vec<Places>,
    relations: Vec<Places>,
}

impl<'k, 'a> Model for Resolver<'k, 'a> {
    ghost use Rattle.conf_model.specs.ConfNames.{File};

    ghost Value = { File };

    ghost use Rattle.annotation_conf.specs.BuildPlaces.{AreResolved};

    ghost view = { λ resolver. resolver.known.now };

    ghost invariant = { λ resolver. AreResolved resolver.known.now resolver.types.items resolver.relations.items };
}

impl<'k, 'a> Resolver<'k, 'a> {
    /// The resolver of a file. Cost: the number of alternatives of its macros, with what they hold.
    pub fn of(alloc: Global, known: &'k KnownMacros<'a>) -> Result<Resolver<'k, 'a>, Memory>
        requires { AreTables known.now }
        ensures { IfOk result (λ resolver. resolver ≡ known.now) }
    {
        let types = macro_lists(alloc, known.names(), Table::Types)?;
        let relations = macro_lists(alloc, known.names(), Table::Relations)?;
        Ok(Resolver {
            known,
            types,
            relations,
        })
    }

    /// What the file declares.
    pub fn names(&self) -> &KnownNames<'a>
        ensures value { result.now ≡ self.now }
        ensures tables { AreTables self.now }
    {
        self.known.names()
    }

    /// The places that macros hold in a table.
    fn lists(&self, table: Table) -> &[Places]
        ensures first { AreFirstPlaces self.now table result.now }
        ensures all { take (length result.now) self.now.macros ≡ self.now.macros }
    {
        match table {
            Table::Types => self.types.as_slice(),
            Table::Relations => self.relations.as_slice(),
        }
    }

    /// The sorts that alternatives hold.
    fn kinds(&self, alternatives: &[Alternative]) -> Kinds
        ensures { result ≡ kinds_of self.now (all_held self.now.macros (map seen_alternative alternatives.now)) }
    {
        all_held(self.known.names(), self.known.kinds(), alternatives)
    }

    /// The places that alternatives hold in a table.
    fn places(
        &self,
        alloc: Global,
        table: Table,
        alternatives: &[Alternative],
    ) -> Result<Places, Memory>
        ensures { IfOk result (λ places. places ≡ places_held self.now table (all_held self.now.macros (map seen_alternative alternatives.now))) }
    {
        gather_places(alloc, self.names(), table, self.lists(table), alternatives)
    }

    /// The places that alternatives hold among relation types, where these may stand.
    fn between(
        &self,
        alloc: Global,
        relations: bool,
        alternatives: &[Alternative],
    ) -> Result<Places, Memory>
        ensures { IfOk result (λ places. places ≡ (if relations then places_held self.now Table.Relations (all_held self.now.macros (map seen_alternative alternatives.now)) else [])) }
    {
        if relations {
            self.places(alloc, Table::Relations, alternatives)
        } else {
            Ok(Places::from_vec(Vec::new(alloc)))
        }
    }

    /// Alternatives by the places of what they hold.
    pub fn resolved(
        &self,
        alloc: Global,
        relations: bool,
        alternatives: &[Alternative],
    ) -> Result<Alternatives, Memory>
        ensures { IfOk result (λ named. named ≡ resolved self.now relations (map seen_alternative alternatives.now)) }
    {
        let kinds = self.kinds(alternatives);
        let bound = self.places(alloc, Table::Types, alternatives)?;
        let between = self.between(alloc, relations, alternatives)?;
        Ok(Alternatives {
            entity: kinds.entity,
            event: kinds.event,
            any: kinds.any,
            relation: kinds.relation,
            bound,
            between,
        })
    }
}
