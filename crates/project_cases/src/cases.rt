//! The cases of a file and their sections.
use crate::case_fault::{CaseFault, CaseWhat};
use mark_base::count_line_ends;
use std::alloc::Global;

/// A section: the number of its first line in the file, from 1, its name, and the lines below that.
#[derive(Clone, Copy)]
pub(crate) struct Section<'t> {
    pub(crate) line: u32,
    pub(crate) name: &'t str,
    pub(crate) lines: &'t str,
}

/// A case: its name, the line at which it begins, and its sections behind those that all cases of its file have.
#[derive(Drop)]
pub(crate) struct Case<'t> {
    pub(crate) line: u32,
    pub(crate) name: &'t str,
    sections: Vec<Section<'t>>,
}

/// A text with its first line as the name.
fn named(line: u32, text: &str) -> Section<'_> {
    match text.split_once('\n') {
        Some((name, lines)) => Section { line, name, lines },
        None => Section {
            line,
            name: text,
            lines: "",
        },
    }
}

/// The number of the line that is so many lines below another one.
fn below(line: u32, text: &str) -> u32 {
    let count = count_line_ends(text.as_bytes());
    match u32::try_from(count) {
        Ok(count) => line.saturating_add(count),
        Err(_) => line,
    }
}

/// Cuts a text at lines that begin with a mark, which is given with the line feed before it.
fn parts_of<'t>(
    alloc: Global,
    text: &'t str,
    mark: &str,
    first: u32,
) -> Result<Vec<Section<'t>>, CaseFault> {
    let mut parts = Vec::new(alloc);
    let mut line = first;
    for part in text.split(mark) {
        parts.push(named(line, part))?;
        line = below(line, part).saturating_add(1);
    }
    Ok(parts)
}

/// Appends the sections of a case, or of the head of a file.
fn push_sections<'t>(
    alloc: Global,
    sections: &mut Vec<Section<'t>>,
    part: Section<'t>,
) -> Result<(), CaseFault> {
    let Some((_, lines)) = part.lines.split_once("-- ") else {
        return Ok(());
    };
    for section in parts_of(alloc, lines, "\n-- ", part.line.saturating_add(1))? {
        sections.push(section)?;
    }
    Ok(())
}

/// The cases of a file. `-- NAME` begins a section and `== NAME` a case; the sections before the first case are those
/// of each case that has none of that name.
pub(crate) fn cases_of(alloc: Global, text: &str) -> Result<Vec<Case<'_>>, CaseFault> {
    let parts = parts_of(alloc, text, "\n== ", 1)?;
    let mut cases = Vec::new(alloc);
    let Some(head) = parts.first() else {
        return Ok(cases);
    };
    for part in parts.iter().skip(1) {
        let mut sections = Vec::new(alloc);
        push_sections(alloc, &mut sections, *head)?;
        push_sections(alloc, &mut sections, *part)?;
        cases.push(Case {
            line: part.line,
            name: part.name,
            sections,
        })?;
    }
    Ok(cases)
}

impl<'t> Case<'t> {
    /// The section of a name; an empty one where there is none.
    pub(crate) fn section(&self, name: &str) -> Section<'t> {
        let mut found = Section {
            line: self.line,
            name: "",
            lines: "",
        };
        for section in self.sections.iter() {
            if section.name == name {
                found = *section;
            }
        }
        found
    }

    /// Whether there is a section of a name.
    pub(crate) fn has(&self, name: &str) -> bool {
        self.sections.iter().any(|section| section.name == name)
    }

    /// The numbers in a section.
    pub(crate) fn numbers(&self, alloc: Global, name: &str) -> Result<Vec<u64>, CaseFault> {
        let section = self.section(name);
        let mut numbers = Vec::new(alloc);
        for word in section.lines.split_whitespace() {
            match word.parse::<u64>() {
                Ok(number) => numbers.push(number)?,
                Err(_) => {
                    return Err(CaseFault::At {
                        line: section.line,
                        what: CaseWhat::NoNumber,
                    });
                }
            }
        }
        Ok(numbers)
    }
}
