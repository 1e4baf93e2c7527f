//! The form of a case file: its title, what its cases have in common, and its cases.
use crate::headers::{Called, Header, read_header};
use crate::malformed::{Flaw, Malformed};
use mark_base::Memory;
use std::alloc::Global;
use std::mem;

/// A section of a case: what its header says, the line of that header, and the lines below it.
#[derive(Debug, Drop)]
pub struct Section<'f> {
    pub header: Header<'f>,
    pub line: usize,
    pub lines: Vec<&'f str>,
}

/// A case as it is written, or what all cases of a file have in common.
#[derive(Debug, Drop)]
pub struct Written<'f> {
    pub name: &'f str,
    /// The line of its name, counted from 1.
    pub line: usize,
    /// What stands behind `words:`.
    pub words: Option<&'f str>,
    /// What stands behind each `first:`, in turn.
    pub firsts: Vec<&'f str>,
    pub sections: Vec<Section<'f>>,
    /// The first line that has no form.
    pub flaw: Option<Malformed>,
}

/// A case file.
#[derive(Debug, Drop)]
pub struct CaseFile<'f> {
    /// What the file shows.
    pub title: &'f str,
    /// What all its cases have in common.
    pub common: Written<'f>,
    pub cases: Vec<Written<'f>>,
}

/// The first section of a name.
pub fn find_section<'s, 'f>(
    sections: &'s [Section<'f>],
    called: Called<'f>,
) -> Option<&'s Section<'f>> {
    for section in sections {
        if section.header.called() == called {
            return Some(section);
        }
    }
    None
}

impl<'f> Written<'f> {
    /// A case of this name with nothing below it yet.
    fn new(alloc: Global, name: &'f str, line: usize) -> Self {
        Written {
            name,
            line,
            words: None,
            firsts: Vec::new(alloc),
            sections: Vec::new(alloc),
            flaw: None,
        }
    }

    /// Keeps what is wrong with a line, where nothing was wrong before.
    fn note(&mut self, line: usize, flaw: Flaw) {
        if self.flaw.is_none() {
            self.flaw = Some(Malformed::At { line, flaw });
        }
    }

    /// Takes what stands behind `words:`.
    fn take_words(&mut self, line: usize, words: &'f str) {
        if self.words.is_some() {
            self.note(line, Flaw::Twice);
            return;
        }
        match words.strip_prefix(' ') {
            Some(words) => self.words = Some(words),
            None if words.is_empty() => self.words = Some(""),
            None => self.note(line, Flaw::NoSection),
        }
    }

    /// Takes a section with its lines.
    fn take_section(&mut self, section: Section<'f>) -> Result<(), Memory> {
        let again = !section.header.may_repeat()
            && find_section(self.sections.as_slice(), section.header.called()).is_some();
        if again {
            self.note(section.line, Flaw::Twice);
        }
        self.sections.push(section)?;
        Ok(())
    }
}

/// What was read of a case file.
#[derive(Debug, Drop)]
struct Reader<'f> {
    alloc: Global,
    title: &'f str,
    /// What the cases have in common, and then the cases before the current one.
    done: Vec<Written<'f>>,
    /// The current case.
    current: Written<'f>,
    /// The section whose lines are read.
    open: Option<Section<'f>>,
}

impl<'f> Reader<'f> {
    /// Ends the section whose lines were read.
    fn end_section(&mut self) -> Result<(), Memory> {
        match self.open.take() {
            Some(section) => self.current.take_section(section),
            None => Ok(()),
        }
    }

    /// Begins a case. A blank line before it is none of the section above.
    fn begin_case(&mut self, number: usize, name: &'f str) -> Result<(), Memory> {
        if let Some(section) = &mut self.open {
            if section.lines.last().is_some_and(|line| line.is_empty()) {
                let _ = section.lines.pop();
            }
        }
        self.end_section()?;
        let next = Written::new(self.alloc, name, number);
        let before = mem::replace(&mut self.current, next);
        self.done.push(before)?;
        Ok(())
    }

    /// Begins a section.
    fn begin_section(&mut self, number: usize, header: &'f str) -> Result<(), Memory> {
        self.end_section()?;
        let Some(header) = read_header(header) else {
            self.current.note(number, Flaw::BadHeader);
            return Ok(());
        };
        let section = Section {
            header,
            line: number,
            lines: Vec::new(self.alloc),
        };
        if header.takes_lines() {
            self.open = Some(section);
            return Ok(());
        }
        self.current.take_section(section)
    }

    /// Takes a line that stands in no section: the words, those of a run before, a comment or a blank line.
    fn take_loose(&mut self, number: usize, line: &'f str) -> Result<(), Memory> {
        if let Some(words) = line.strip_prefix("words:") {
            self.current.take_words(number, words);
        } else if let Some(words) = line.strip_prefix("first: ") {
            self.current.firsts.push(words)?;
        } else if !line.is_empty() && !line.starts_with('#') {
            self.current.note(number, Flaw::NoSection);
        }
        Ok(())
    }

    /// Takes a line.
    fn take_line(&mut self, number: usize, line: &'f str) -> Result<(), Memory> {
        if let Some(name) = line.strip_prefix("== ") {
            return self.begin_case(number, name);
        }
        if let Some(header) = line.strip_prefix("-- ") {
            return self.begin_section(number, header);
        }
        match &mut self.open {
            Some(section) => section.lines.push(line)?,
            None => self.take_loose(number, line)?,
        }
        Ok(())
    }

    /// The file whose lines were read.
    fn finish(mut self) -> Result<CaseFile<'f>, Memory> {
        self.end_section()?;
        let Reader {
            title,
            mut done,
            current,
            ..
        } = self;
        done.push(current)?;
        let common = done.remove(0);
        Ok(CaseFile {
            title,
            common,
            cases: done,
        })
    }
}

/// The lines of a file, without the empty one behind its last LF.
fn without_last_end(text: &str) -> &str {
    match text.strip_suffix('\n') {
        Some(lines) => lines,
        None => text,
    }
}

/// Reads a case file. A line that has no form is kept with its case, and the next case is read. Cost: its
/// bytes.
pub fn read_cases<'f>(alloc: Global, text: &'f str) -> Result<CaseFile<'f>, Malformed> {
    let mut reader = Reader {
        alloc,
        title: "",
        done: Vec::new(alloc),
        current: Written::new(alloc, "", 1),
        open: None,
    };
    for (index, line) in without_last_end(text).split('\n').enumerate() {
        if index > 0 {
            reader.take_line(index.saturating_add(1), line)?;
        } else if let Some(title) = line.strip_prefix("# ") {
            reader.title = title;
        } else {
            reader.current.note(1, Flaw::NoTitle);
        }
    }
    Ok(reader.finish()?)
}
