//! What `--help` and `--version` print.
ghost use Rattle.std.specs.Prelude.{◌≡◌, ◌≢◌, IfErr, MatchResult};
ghost use Rattle.annotation_cli.specs.Help.{version_line};

use mark_base::Bytes;
use program_inputs::Trouble;
use std::alloc::Global;

/// Every command in a line with an example, what each status means, and where the documents are.
const HELP: &str = "annotate WORDS: text annotation by several people, and its curation.
BOOK, OLD and NEW are files of projects. Each other file is only read. --version names the program.

  try CONF TEXT                  serves a project in memory on the console, from a desk on its one text
      annotate try news.conf news.txt <requests
  found BOOK CONF ROSTER         makes the file of a project
      annotate found news.book news.conf people.csv
  found-at BOOK CONF ROSTER LEVEL  the same, with agreement at a level of the tree of types, 0 to 254
      annotate found-at news.book news.conf people.csv 0
  add BOOK CALLER NAME TEXT      adds a document
      annotate add news.book cur rome rome.txt
  serve BOOK PORT                serves the project on 127.0.0.1, to sixty-four connections at a time
      annotate serve news.book 8080
  session BOOK                   serves the project on the console
      annotate session news.book <requests
  import BOOK WHO NAME ANN       makes an .ann file the committed layer of an annotator
      annotate import news.book ann rome rome.ann
  export BOOK WHO NAME           prints a committed layer as .ann lines
      annotate export news.book ann rome
  columns-out BOOK WHO NAME      prints a committed layer as token and label columns
      annotate columns-out news.book ann rome
  agree BOOK                     prints the tables of agreement
      annotate agree news.book
  scores BOOK                    prints the exact-match scores of each two annotators
      annotate scores news.book
  progress BOOK                  prints how far each annotator is on each document
      annotate progress news.book
  snapshots BOOK                 prints how far each snapshot is decided
      annotate snapshots news.book
  curated BOOK NUMBER            prints the curated layer of a snapshot as .ann lines
      annotate curated news.book 1
  compact OLD NEW                makes a file that begins with the state of the project
      annotate compact news.book news.new
  demo NUMBER                    makes a project of forty texts in memory, serves its requests, and sums it up
      annotate demo 7
  verify CONF TEXT ANN           judges an .ann file, and counts what it has
      annotate verify news.conf rome.txt rome.ann
  columns-in CONF TEXT COLUMNS   prints the layer of a column file as .ann lines
      annotate columns-in news.conf rome.txt rome.tsv

Status 0: done. 1: a fault of an .ann file, or of the configuration beside it. 2: no command.
3: a file at fault, or the project refuses. 4, 5, 6: a device failed, or (4) another process has
the project: only export, columns-out, agree, scores, progress, snapshots, curated and OLD work
beside a server. 7: no memory.
docs/getting-started.md is a first project; docs/operating.md says what each line of complaint means.
";

/// The program's name and version.
const VERSION: &str = "annotate 1.0.0\n";

/// The text of the help.
pub fn help_text(alloc: Global) -> Result<Bytes, Trouble>
    ensures { IfErr result (λ trouble. trouble ≡ Trouble.Memory) }
{
    let text = Bytes::of(alloc, HELP.as_bytes())?;
    Ok(text)
}

/// The name and the version of the program, as a line.
pub fn version_line(alloc: Global) -> Result<Bytes, Trouble>
    ensures { MatchResult result (λ line. line ≡ version_line) (λ trouble. trouble ≡ Trouble.Memory) }
{
    let line = Bytes::of(alloc, VERSION.as_bytes())?;
    Ok(line)
}
