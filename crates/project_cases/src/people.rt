//! The configuration and the people of a case.
use crate::case_fault::{CaseFault, CaseWhat};
use crate::cases::Section;
use annotation_conf::read_conf;
use conf_model::Conf;
use entry_bytes::Person;
use mark_base::Slug;
use project_book::Roster;
use std::alloc::Global;

/// This fault in a section.
fn at(section: Section<'_>, what: CaseWhat) -> CaseFault {
    CaseFault::At {
        line: section.line,
        what,
    }
}

/// The configuration of a section.
pub(crate) fn conf_of(alloc: Global, section: Section<'_>) -> Result<Conf, CaseFault> {
    let bytes = section.lines.as_bytes();
    if bytes.len() > 4_194_304 {
        return Err(at(section, CaseWhat::BadConf));
    }
    match read_conf(alloc, bytes) {
        Ok(conf) => Ok(conf),
        Err(_) => Err(at(section, CaseWhat::BadConf)),
    }
}

/// The person of a line: `annotator NAME` or `curator NAME`.
fn person_of(alloc: Global, line: &str) -> Option<Person> {
    let (sort, name) = line.split_once(' ')?;
    let curator = match sort {
        "annotator" => false,
        "curator" => true,
        _ => return None,
    };
    let name = Slug::new(alloc, name).ok()?;
    Some(Person { name, curator })
}

/// The roster of the people of a section, a line each.
pub(crate) fn roster_of(alloc: Global, section: Section<'_>) -> Result<Roster, CaseFault> {
    let mut people = Vec::new(alloc);
    for line in section.lines.lines() {
        if !line.is_empty() {
            match person_of(alloc, line) {
                Some(person) => people.push(person)?,
                None => return Err(at(section, CaseWhat::BadPerson)),
            }
        }
    }
    if people.len() > 65_536 {
        return Err(at(section, CaseWhat::BadRoster));
    }
    match Roster::of(alloc, people) {
        Ok(roster) => Ok(roster),
        Err(_) => Err(at(section, CaseWhat::BadRoster)),
    }
}
