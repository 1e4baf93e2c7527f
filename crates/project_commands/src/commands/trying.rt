//! The command `try`: a project in memory on a configuration and a text, served on the console.
ghost use Rattle.std.specs.Prelude.{◌≡◌, ◌≢◌, ◌≤◌, codes, IfErr, IfOk, IsErrOf};
ghost use Rattle.mark_base.specs.FailList.{IsFaultless};
ghost use Rattle.mark_base.specs.Streams.{TellsFault};
ghost use Rattle.project_journal.specs.MemoryKeepers.{fails_of_appends};
ghost use Rattle.annotation_http.specs.Exchanges.Connections.{holding_of};
ghost use Rattle.project_commands.specs.Commands.Trying.{FindsProject, IsTried, NoProject, NotTried, ServedFrom, TryTold, try_people};

use crate::commands::founding::{found_in_memory, person, slug_of};
use crate::commands::requests::{add_text, check_out};
use crate::commands::serving::serve;
use annotation_http::{Held, Start};
use char_documents::Doc;
use conf_model::Conf;
use mark_base::{Link, Memory, Slug, Steps};
use program_inputs::{Folder, Trouble, read_conf_file, read_text_file};
use project_book::{Alone, Book, Roster};
use project_journal::MemoryKeeper;
use std::alloc::Global;
use std::sync::ledger::Ledger;

/// The people of a project to try.
fn try_people(alloc: Global) -> Result<Roster, Memory>
    ensures { IfOk result (λ roster. roster ≡ try_people) }
{
    let mut people = Vec::new(alloc);
    people.push(person(alloc, "you", false)?)?;
    people.push(person(alloc, "desk", true)?)?;
    match Roster::of(alloc, people) {
        Ok(roster) => Ok(roster),
        Err(_) => Err(Memory),
    }
}

/// The names of the people and, twice, of the document.
#[derive(Drop)]
struct Names {
    desk: Slug,
    you: Slug,
    added: Slug,
    taken: Slug,
}

impl Names {
    /// The names.
    fn of(alloc: Global) -> Result<Names, Memory>
        ensures desk { IfOk result (λ names. names.desk ≡ codes "desk") }
        ensures you { IfOk result (λ names. names.you ≡ codes "you") }
        ensures added { IfOk result (λ names. names.added ≡ codes "text") }
        ensures taken { IfOk result (λ names. names.taken ≡ codes "text") }
    {
        Ok(Names {
            desk: slug_of(alloc, "desk")?,
            you: slug_of(alloc, "you")?,
            added: slug_of(alloc, "text")?,
            taken: slug_of(alloc, "text")?,
        })
    }
}

/// A project with its desk.
#[derive(Drop)]
struct Tried {
    book: Book<MemoryKeeper>,
    held: Held,
}

/// The project of a configuration and a text, whose one document is out.
fn found_project<G: Ledger>(
    alloc: Global,
    conf: Conf,
    text: Doc,
    steps: &mut Steps<G>,
) -> Result<Tried, Trouble>
    ensures tried { IfOk result (λ tried. IsTried conf text (holding_of tried.held) tried.book.log) }
    ensures sure { IfOk result (λ tried. IsFaultless (fails_of_appends tried.book.keeper)) }
    ensures refused { IfErr result (NotTried conf text) }
{
    let roster = try_people(alloc)?;
    let names = Names::of(alloc)?;
    let Names {
        desk,
        you,
        added,
        taken,
    } = names;
    let mut book = found_in_memory(alloc, conf, roster)?;
    match add_text(&mut book, &desk, added, text, steps) {
        Ok(_) => {}
        Err(why) => return Err(why),
    }
    match check_out(alloc, &mut book, you, taken, steps) {
        Ok(held) => Ok(Tried { book, held }),
        Err(why) => Err(why),
    }
}

/// Serves the console from the desk of a project.
fn serve_desk<C: Link, G: Ledger>(
    alloc: Global,
    tried: Tried,
    console: &mut C,
    steps: &mut Steps<G>,
) -> Result<(), Trouble>
    requires sure { IsFaultless (fails_of_appends tried.book.keeper) }
    ensures told { ServedFrom (holding_of tried.held) tried.book.log (fails_of_appends tried.book.keeper) (C.left console.old) (C.left console.new) (C.held console.old) (C.held console.new) result }
    ensures folder { IfErr result (λ trouble. trouble ≢ Trouble.FileFailed) }
    ensures disk { IfErr result (λ trouble. trouble ≢ Trouble.DiskFailed) }
    ensures free { IfErr result (λ trouble. trouble ≢ Trouble.DiskInUse) }
    ensures read { TellsFault (IsErrOf result Trouble.ReadFault) (C.read_faults console.old) (C.read_faults console.new) }
    ensures write { TellsFault (IsErrOf result Trouble.WriteFault) (C.write_faults console.old) (C.write_faults console.new) }
{
    let Tried { book, held } = tried;
    book.keeps();
    let mut visitor = Alone::new(book);
    serve(alloc, &mut visitor, Start::Held(held), console, steps)
}

/// The project of two files, each of which is judged before the next is read.
fn read_project<F: Folder, G: Ledger>(
    alloc: Global,
    conf: &str,
    text: &str,
    folder: &mut F,
    steps: &mut Steps<G>,
) -> Result<Tried, Trouble>
    ensures tried { IfOk result (λ tried. FindsProject (F.file folder.old conf.now) (F.file folder.old text.now) (holding_of tried.held) tried.book.log) }
    ensures sure { IfOk result (λ tried. IsFaultless (fails_of_appends tried.book.keeper)) }
    ensures refused { IfErr result (NoProject (F.file folder.old conf.now) (F.file folder.old text.now) (F.folder_faults folder.old) (F.folder_faults folder.new)) }
    ensures later { F.folder_faults folder.old ≤ F.folder_faults folder.new }
    ensures cause { TellsFault (IsErrOf result Trouble.FileFailed) (F.folder_faults folder.old) (F.folder_faults folder.new) }
    ensures no_read { IfErr result (λ trouble. trouble ≢ Trouble.ReadFault) }
    ensures no_write { IfErr result (λ trouble. trouble ≢ Trouble.WriteFault) }
    ensures no_use { IfErr result (λ trouble. trouble ≢ Trouble.DiskInUse) }
    ensures no_disk { IfErr result (λ trouble. trouble ≢ Trouble.DiskFailed) }
{
    let conf = read_conf_file(alloc, folder, conf)?;
    let text = read_text_file(alloc, folder, text)?;
    found_project(alloc, conf, text, steps)
}

/// `try CONF TEXT`: founds a project in memory with a configuration and the people `desk`, a curator, and `you`, an
/// annotator, adds the text as the document `text`, checks it out for the annotator, and serves the console from there.
///
/// Where a file is at fault, or the project refuses it, nothing is served. A configuration whose text as it would be
/// kept has more than 4,194,304 bytes founds no project: `BookTooLong`. Cost: the files, and what is asked on the console.
pub fn try_project<F: Folder, C: Link, G: Ledger>(
    alloc: Global,
    conf: &str,
    text: &str,
    folder: &mut F,
    console: &mut C,
    steps: &mut Steps<G>,
) -> Result<(), Trouble>
    ensures told { TryTold (F.file folder.old conf.now) (F.file folder.old text.now) (F.folder_faults folder.old) (F.folder_faults folder.new)
        (C.left console.old) (C.left console.new) (C.held console.old) (C.held console.new) result }
    ensures later { F.folder_faults folder.old ≤ F.folder_faults folder.new }
    ensures folder { TellsFault (IsErrOf result Trouble.FileFailed) (F.folder_faults folder.old) (F.folder_faults folder.new) }
    ensures disk { IfErr result (λ trouble. trouble ≢ Trouble.DiskFailed) }
    ensures free { IfErr result (λ trouble. trouble ≢ Trouble.DiskInUse) }
    ensures read { TellsFault (IsErrOf result Trouble.ReadFault) (C.read_faults console.old) (C.read_faults console.new) }
    ensures write { TellsFault (IsErrOf result Trouble.WriteFault) (C.write_faults console.old) (C.write_faults console.new) }
{
    let tried = read_project(alloc, conf, text, folder, steps)?;
    serve_desk(alloc, tried, console, steps)
}
