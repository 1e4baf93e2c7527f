//! The commands `found` and `found-at`: a project is founded in a file.
ghost use Rattle.std.specs.Prelude.{◌≡◌, ◌≢◌, ◌≤◌, IfErr, IfOk, IsErrOf, MatchResult};
ghost use Rattle.mark_base.specs.Streams.{TellsFault};
ghost use Rattle.named_disks.specs.NamedDisks.{IsIn, KeepsOthers, reads_as};
ghost use Rattle.project_machine.specs.People.{annotator_count, curator_count};
ghost use Rattle.program_inputs.specs.ProjectFiles.ProjectFiles.{IsFileOf, NotMade};
ghost use Rattle.project_book.specs.Founding.{founded};
ghost use Rattle.project_commands.specs.Founding.{Founds, NotFounded, people_line};

use conf_model::Conf;
use entry_bytes::Person;
use mark_base::{Bytes, Memory};
use named_disks::Disks;
use program_inputs::{
    Folder, Trouble, found_project, give_project_back, read_conf_file, read_roster_file,
};
use project_book::Roster;
use std::alloc::Global;

/// How many of some people are annotators.
fn annotator_count(people: &[Person]) -> usize
    ensures { result ≡ annotator_count people.now }
{
    people.iter().filter(|person| !person.curator).count()
}

/// How many of some people are curators.
fn curator_count(people: &[Person]) -> usize
    ensures { result ≡ curator_count people.now }
{
    people.iter().filter(|person| person.curator).count()
}

/// The line that counts the people of a roster.
fn people_line(alloc: Global, roster: &Roster) -> Result<Bytes, Memory>
    ensures { IfOk result (λ bytes. bytes ≡ people_line roster.now) }
{
    let annotators = annotator_count(roster.people());
    let curators = curator_count(roster.people());
    let line = format!(in alloc; "annotators {annotators} curators {curators}\n")?;
    Ok(Bytes::from_vec(line.into_bytes()))
}

/// Founds a project in the file of a name, and gives the file back.
fn found_there<D: Disks>(
    alloc: Global,
    disks: &mut D,
    book: &str,
    conf: Conf,
    roster: Roster,
    level: u8,
) -> Result<(), Trouble>
    requires { IsIn (D.out disks.old) book.now }
    ensures founded { IfOk result (λ _. IsFileOf (reads_as (D.stored disks.new) book.now) (founded conf level roster)) }
    ensures refused { IfErr result (NotMade (reads_as (D.stored disks.old) book.now) conf level roster) }
    ensures taken_back { IsIn (D.out disks.new) book.now }
    ensures others { KeepsOthers book.now (D.stored disks.old) (D.out disks.old) (D.stored disks.new) (D.out disks.new) }
    ensures stays { D.faultless disks.old → D.faultless disks.new }
    ensures never { D.faultless disks.old → IsErrOf result Trouble.DiskFailed → ⊥ }
    ensures free { D.faultless disks.old → IsErrOf result Trouble.DiskInUse → ⊥ }
{
    let project = found_project(alloc, disks, book, conf, roster, level)?;
    give_project_back(disks, book, project);
    Ok(())
}

/// `found BOOK CONF ROSTER`, and `found-at BOOK CONF ROSTER LEVEL` with a level other than 255: reads a configuration and
/// a roster, founds a project of them in the file of a name, and gives the line that counts its people.
///
/// Each file is judged before the next is read, and the project's comes last: it has to be absent or empty, else
/// `AlreadyThere`. Where a file is at fault the project's is as it was, but for `DiskFailed`, and for `BookTooLong`, where
/// it is a journal without entries. Cost: the files.
pub fn found_in_file<F: Folder, D: Disks>(
    alloc: Global,
    book: &str,
    conf: &str,
    roster: &str,
    level: u8,
    folder: &mut F,
    disks: &mut D,
) -> Result<Bytes, Trouble>
    requires { IsIn (D.out disks.old) book.now }
    ensures told { MatchResult result (Founds (F.file folder.old conf.now) (F.file folder.old roster.now) level (reads_as (D.stored disks.new) book.now)) (NotFounded (F.file folder.old conf.now) (F.file folder.old roster.now) level (reads_as (D.stored disks.old) book.now) (F.folder_faults folder.old) (F.folder_faults folder.new)) }
    ensures taken_back { IsIn (D.out disks.new) book.now }
    ensures others { KeepsOthers book.now (D.stored disks.old) (D.out disks.old) (D.stored disks.new) (D.out disks.new) }
    ensures stays { D.faultless disks.old → D.faultless disks.new }
    ensures never { D.faultless disks.old → IsErrOf result Trouble.DiskFailed → ⊥ }
    ensures free { D.faultless disks.old → IsErrOf result Trouble.DiskInUse → ⊥ }
    ensures later { F.folder_faults folder.old ≤ F.folder_faults folder.new }
    ensures cause { TellsFault (IsErrOf result Trouble.FileFailed) (F.folder_faults folder.old) (F.folder_faults folder.new) }
    ensures no_read { IfErr result (λ trouble. trouble ≢ Trouble.ReadFault) }
    ensures no_write { IfErr result (λ trouble. trouble ≢ Trouble.WriteFault) }
{
    let conf = read_conf_file(alloc, folder, conf)?;
    let roster = match read_roster_file(alloc, folder, roster) {
        Ok(roster) => roster,
        Err(why) => return Err(why),
    };
    let line = people_line(alloc, &roster)?;
    match found_there(alloc, disks, book, conf, roster, level) {
        Ok(()) => Ok(line),
        Err(why) => Err(why),
    }
}
