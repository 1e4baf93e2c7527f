//! The first fault of a file.
ghost use Rattle.std.specs.Prelude.{◌≡◌, ◌≤◌, ◌<◌, ◌+◌, [], None, length, option_map, IfOk, map};
ghost use Rattle.std.specs.Option.{option_or};
ghost use Rattle.std.specs.List.{list_any};
ghost use Rattle.conf_model.specs.ConfOf.{missing_fault};
ghost use Rattle.annotation_conf.specs.FirstFaults.{first_among, sooner, soonest_fault};
ghost use Rattle.annotation_conf.specs.FaultsTold.{relation_told, overlap_told, attribute_told};
ghost use Rattle.annotation_conf.specs.FaultsFirst.{seen_fault, fault_on, first_entity_told, first_event_told, first_macro_told, is_open, open_too, open_behind, bare_told, first_bare_told, none_open, opens_entities, missing_told};

use crate::faults_lines::{
    attribute_fault, macro_fault, overlap_fault, relation_fault, type_fault,
};
use crate::faults_macros::KnownMacros;
use crate::file::{MacroLine, NamedLine, TypeLine};
use crate::line::{Line, Section, What};
use conf_model::ConfWhat;
use mark_base::Memory;
use std::alloc::Global;

/// A fault and the number of its line.
#[derive(Clone, Copy, Debug, PartialEq, Eq)]
pub struct LineFault {
    pub line: u32,
    pub what: ConfWhat,
}

/// The sections that are open.
#[derive(Clone, Copy, Debug, PartialEq, Eq)]
pub struct Opened {
    pub entities: bool,
    pub relations: bool,
    pub events: bool,
    pub attributes: bool,
}

impl Opened {
    /// Whether a section is open.
    fn has(self, section: Section) -> bool
        ensures { result ≡ is_open self section }
    {
        match section {
            Section::Entities => self.entities,
            Section::Relations => self.relations,
            Section::Events => self.events,
            Section::Attributes => self.attributes,
        }
    }

    /// The sections that are open once this one is.
    fn with(self, section: Section) -> Self
        ensures { result ≡ open_too self section }
    {
        let mut opened = self;
        match section {
            Section::Entities => opened.entities = true,
            Section::Relations => opened.relations = true,
            Section::Events => opened.events = true,
            Section::Attributes => opened.attributes = true,
        }
        opened
    }

    /// The sections that are open behind a line.
    fn behind(self, what: What) -> Self
        ensures { result ≡ open_behind self what }
    {
        match what {
            What::Opens(section) => self.with(section),
            What::Plain => self,
            What::Unknown => self,
            What::Outside => self,
        }
    }
}

/// The fault of a section line, or of a line before the first section.
fn bare_fault(opened: Opened, what: What) -> Option<ConfWhat>
    ensures { result ≡ bare_told opened what }
{
    match what {
        What::Plain => None,
        What::Unknown => Some(ConfWhat::UnknownSection),
        What::Opens(section) => {
            if opened.has(section) {
                Some(ConfWhat::SectionTwice)
            } else {
                None
            }
        }
        What::Outside => Some(ConfWhat::OutsideSection),
    }
}

/// The first fault of section lines and of lines before the first section.
fn first_bare(lines: &[Line]) -> Option<LineFault>
    ensures { option_map seen_fault result ≡ first_bare_told none_open lines.now }
{
    let mut opened = Opened {
        entities: false,
        relations: false,
        events: false,
        attributes: false,
    };
    for line in lines {
        if let Some(what) = bare_fault(opened, line.what) {
            return Some(LineFault {
                line: line.number,
                what,
            });
        }
        opened = opened.behind(line.what);
    }
    None
}

/// The first fault of the lines of entity types.
fn first_entity(
    alloc: Global,
    known: &KnownMacros,
    lines: &[TypeLine],
) -> Result<Option<LineFault>, Memory>
    ensures { IfOk result (λ fault. option_map seen_fault fault ≡ first_entity_told known.now None lines.now) }
{
    let mut before = None;
    for line in lines {
        if let Some(what) = type_fault(alloc, known, before, &[], false, line)? {
            return Ok(Some(LineFault {
                line: line.number,
                what,
            }));
        }
        before = Some(line.depth);
    }
    Ok(None)
}

/// The first fault of the lines of event types.
fn first_event(
    alloc: Global,
    known: &KnownMacros,
    lines: &[TypeLine],
) -> Result<Option<LineFault>, Memory>
    ensures { IfOk result (λ fault. option_map seen_fault fault ≡ first_event_told known.now None lines.now) }
{
    let mut before = None;
    for line in lines {
        let pieces = &line.pieces;
        if let Some(what) = type_fault(
            alloc,
            known,
            before,
            &pieces.pairs,
            pieces.shapeless,
            line,
        )? {
            return Ok(Some(LineFault {
                line: line.number,
                what,
            }));
        }
        before = Some(line.depth);
    }
    Ok(None)
}

/// The first fault of the lines of relation types.
fn first_relation(known: &KnownMacros, lines: &[NamedLine]) -> Option<LineFault>
    ensures { option_map seen_fault result ≡ first_among (λ line. line.number) (relation_told known.now) lines.now }
{
    for line in lines {
        if let Some(what) = relation_fault(known, line) {
            return Some(LineFault {
                line: line.number,
                what,
            });
        }
    }
    None
}

/// The first fault of overlap lines.
fn first_overlap(
    alloc: Global,
    known: &KnownMacros,
    lines: &[NamedLine],
) -> Result<Option<LineFault>, Memory>
    ensures { IfOk result (λ fault. option_map seen_fault fault ≡ first_among (λ line. line.number) (overlap_told known.now) lines.now) }
{
    for line in lines {
        if let Some(what) = overlap_fault(alloc, known, line)? {
            return Ok(Some(LineFault {
                line: line.number,
                what,
            }));
        }
    }
    Ok(None)
}

/// The first fault of attribute lines.
fn first_attribute(
    alloc: Global,
    known: &KnownMacros,
    lines: &[NamedLine],
) -> Result<Option<LineFault>, Memory>
    ensures { IfOk result (λ fault. option_map seen_fault fault ≡ first_among (λ line. line.number) (attribute_told known.now) lines.now) }
{
    for line in lines {
        if let Some(what) = attribute_fault(alloc, known, line)? {
            return Ok(Some(LineFault {
                line: line.number,
                what,
            }));
        }
    }
    Ok(None)
}

/// The first fault of macros.
fn first_macro(known: &KnownMacros, lines: &[MacroLine]) -> Option<LineFault>
    requires { length lines.now ≡ length known.now.macros }
    ensures { option_map seen_fault result ≡ first_macro_told known.now 0 lines.now }
{
    for (place, line) in lines.iter().enumerate() {
        if let Some(what) = macro_fault(known.names(), &known.kinds()[..place], line) {
            return Some(LineFault {
                line: line.number,
                what,
            });
        }
    }
    None
}

/// Of two faults the one of the earlier line.
fn sooner(one: Option<LineFault>, other: Option<LineFault>) -> Option<LineFault>
    ensures { option_map seen_fault result ≡ sooner (option_map seen_fault one) (option_map seen_fault other) }
{
    match one {
        None => other,
        Some(first) => match other {
            None => one,
            Some(second) => { if second.line < first.line { other } else { one } }
        },
    }
}

/// Whether a line opens `[entities]`.
fn opens_entities(line: &Line) -> bool
    ensures { result ≡ opens_entities line.now.what }
{
    line.what == What::Opens(Section::Entities)
}

/// Whether some line opens `[entities]`.
fn has_entities(lines: &[Line]) -> bool
    ensures { result ≡ list_any (λ line. opens_entities line.what) lines.now }
{
    lines.iter().any(|line| opens_entities(line))
}

/// The first fault of the lines of a file. Cost: its bytes, and the number of alternatives times the
/// logarithm of the number of names.
pub fn first_fault(alloc: Global, known: &KnownMacros) -> Result<Option<LineFault>, Memory>
    ensures { IfOk result (λ fault. option_map seen_fault fault ≡ soonest_fault known.now) }
{
    let file = known.names().file();
    let bare = first_bare(&file.lines);
    let macros = first_macro(known, &file.macros);
    let entities = first_entity(alloc, known, &file.entities)?;
    let events = first_event(alloc, known, &file.events)?;
    let relations = first_relation(known, &file.relations);
    let overlaps = first_overlap(alloc, known, &file.overlaps)?;
    let attributes = first_attribute(alloc, known, &file.attributes)?;
    let named = sooner(relations, sooner(overlaps, attributes));
    Ok(sooner(
        bare,
        sooner(macros, sooner(entities, sooner(events, named))),
    ))
}

/// The fault of a file without `[entities]`, behind its last line.
fn missing_entities(lines: &[Line]) -> Option<LineFault>
    requires { length lines.now < 4294967295 }
    ensures { option_map seen_fault result ≡ missing_told lines.now }
{
    if has_entities(lines) {
        return None;
    }
    Some(LineFault {
        line: lines.len() as u32 + 1,
        what: ConfWhat::SectionMissing,
    })
}

/// The fault of a file, where it has one. Cost: its bytes, and the number of alternatives times the
/// logarithm of the number of names.
pub fn any_fault(alloc: Global, known: &KnownMacros) -> Result<Option<LineFault>, Memory>
    requires { length known.now.lines < 4294967295 }
    ensures { IfOk result (λ fault. option_map seen_fault fault ≡ option_or (soonest_fault known.now) (missing_fault known.now)) }
{
    match first_fault(alloc, known)? {
        Some(fault) => Ok(Some(fault)),
        None => Ok(missing_entities(&known.names().file().lines)),
    }
}
