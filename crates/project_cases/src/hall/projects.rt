//! The project of the cases: one type, an annotator and a curator.
use annotation_conf::read_conf;
use anyhow::{Error, Result};
use conf_model::Conf;
use entry_bytes::Person;
use mark_base::{Bytes, Slug};
use project_book::Roster;
use std::alloc::Global;

/// A configuration of one type.
pub(crate) fn conf(alloc: Global) -> Result<Conf> {
    match read_conf(alloc, b"[entities]\nPerson\n") {
        Ok(conf) => Ok(conf),
        Err(_) => Err(Error::msg("the configuration is not read")),
    }
}

/// The people.
pub(crate) fn roster(alloc: Global) -> Result<Roster> {
    let mut people = Vec::new(alloc);
    for (name, curator) in [("ann", false), ("cur", true)] {
        let Ok(name) = Slug::new(alloc, name) else {
            return Err(Error::msg("a name is not read"));
        };
        people.push(Person { name, curator })?;
    }
    if people.len() > 65_536 {
        return Err(Error::msg("there are too many people"));
    }
    match Roster::of(alloc, people) {
        Ok(roster) => Ok(roster),
        Err(_) => Err(Error::msg("the people are no roster")),
    }
}

/// A message that puts a document of a name.
pub(crate) fn put_message(alloc: Global, name: &str) -> Result<Bytes> {
    let text = format!(in alloc;
        "PUT /docs/{name}/text HTTP/1.1\r\nCaller: cur\r\nContent-Length: 5\r\n\r\na b c"
    )?;
    match Bytes::of(alloc, text.as_bytes()) {
        Ok(bytes) => Ok(bytes),
        Err(_) => Err(Error::msg("memory")),
    }
}

/// Messages of the curator that list the documents so often.
pub(crate) fn list_messages(alloc: Global, times: usize) -> Result<Bytes> {
    let mut text = String::new(alloc);
    for _ in 0..times {
        text.push_str("GET /docs HTTP/1.1\r\nCaller: cur\r\n\r\n")?;
    }
    Ok(Bytes::from_vec(text.into_bytes()))
}
