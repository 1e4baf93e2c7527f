//! Who takes part.
ghost use Rattle.std.specs.Prelude.{◌≡◌, ◌++◌, flat_map, IfOk, OnOk};
ghost use Rattle.agreement_report.specs.Report.{IsReady, text_of};
ghost use Rattle.project_machine.specs.Reports.{person_row, role_text};

use crate::table_writer::{finish, write_row};
use csv::Writer;
use entry_bytes::Person;
use mark_base::{Bytes, Memory, Text};
use std::alloc::Global;

/// What a person is, as a roster file says it.
fn role_text(curator: bool) -> &'static str
    ensures { result.now ≡ role_text curator }
{
    if curator { "curator" } else { "annotator" }
}

/// Writes the row of a person.
fn write_person(alloc: Global, writer: &mut Writer<Vec<u8>>, person: &Person) -> Result<(), Memory>
    requires { IsReady writer.old }
    ensures ready { OnOk result (IsReady writer.new) }
    ensures written { OnOk result (text_of writer.new ≡ text_of writer.old ++ person_row person.now) }
{
    let role = Text::of(alloc, role_text(person.curator))?;
    write_row(
        writer,
        &[person.name.text().as_bytes(), role.text().as_bytes()],
    )
}

/// Writes the rows of people.
fn write_people(
    alloc: Global,
    writer: &mut Writer<Vec<u8>>,
    people: &[Person],
) -> Result<(), Memory>
    requires { IsReady writer.old }
    ensures ready { OnOk result (IsReady writer.new) }
    ensures written { OnOk result (text_of writer.new ≡ text_of writer.old ++ flat_map person_row people.now) }
{
    for person in people {
        write_person(alloc, writer, person)?;
    }
    Ok(())
}

/// Who takes part, as CSV: a row for each person with the name and the role, `annotator` or `curator`, in the order in
/// which they are given. It has no header, and so is a roster file of these people. Cost: the people.
pub fn roster_csv(alloc: Global, people: &[Person]) -> Result<Bytes, Memory>
    ensures { IfOk result (λ bytes. bytes ≡ flat_map person_row people.now) }
{
    let mut writer = Writer::from_writer(Vec::new(alloc));
    write_people(alloc, &mut writer, people)?;
    finish(writer)
}
