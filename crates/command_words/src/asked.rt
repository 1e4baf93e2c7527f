//! The command that the words are.
ghost use Rattle.std.specs.Prelude.{◌≡◌, ◌||◌, false, true, is_none, map, option_and_then, option_map, string_bytes, IfNone, IfOk, IfSome};
ghost use Rattle.std.specs.Str.{all_ascii_digits};
ghost use Rattle.mark_base.specs.Names.{slug_fault};
ghost use Rattle.command_words.specs.Asked.{add_of, alone, columns_of, command_in, command_of, compact_of, demo_of, export_of, found_at, has_hyphen, import_of, is_slug, level_of, number_read, unless_hyphens, with_four, with_one, with_three, with_two};

use mark_base::{Memory, NameFault, Slug};
use std::alloc::Global;

/// What the words ask of the project of a file, where it prints what it found, with the words behind the command's name.
#[derive(Debug, Drop)]
pub enum BookJob<'w> {
    /// A project in a file, at a level of the tree of types, 255 for none.
    Found {
        book: &'w str,
        conf: &'w str,
        roster: &'w str,
        level: u8,
    },
    /// A document more.
    Add {
        book: &'w str,
        caller: Slug,
        name: Slug,
        text: &'w str,
    },
    /// The layer of an .ann file in place of an annotator's.
    Import {
        book: &'w str,
        who: Slug,
        name: Slug,
        ann: &'w str,
    },
    /// The committed layer of an annotator.
    Export {
        book: &'w str,
        who: Slug,
        name: Slug,
    },
    /// The token and label columns of the committed layer of an annotator.
    ColumnsOut {
        book: &'w str,
        who: Slug,
        name: Slug,
    },
    /// Both tables of agreement.
    Agree {
        book: &'w str,
    },
    /// The scores of each two annotators.
    Scores {
        book: &'w str,
    },
    /// How far each annotator is on each document.
    Progress {
        book: &'w str,
    },
    /// How far each snapshot is decided.
    Snapshots {
        book: &'w str,
    },
    /// The curated layer of a snapshot.
    Curated {
        book: &'w str,
        number: u32,
    },
}

/// What the words ask, with the words behind the command's name.
#[derive(Debug, Drop)]
pub enum Job<'w> {
    /// What the commands are.
    Help,
    /// Which program it is.
    Version,
    /// A project in memory on a configuration and a text, served on the console.
    Try {
        conf: &'w str,
        text: &'w str,
    },
    /// How much of each sort an .ann file has.
    Verify {
        conf: &'w str,
        text: &'w str,
        ann: &'w str,
    },
    /// The layer of a column file as .ann lines.
    ColumnsIn {
        conf: &'w str,
        text: &'w str,
        columns: &'w str,
    },
    /// The session of a number with a project in memory, summed up.
    Demo {
        number: u32,
    },
    /// The project of a file, served on the console.
    Session {
        book: &'w str,
    },
    /// Another file that begins with the state of the project of a file.
    Compact {
        book: &'w str,
        made: &'w str,
    },
    /// What is asked of the project of a file and printed.
    Book(BookJob<'w>),
}

// ---- words

/// Whether a word begins with a hyphen.
pub fn has_hyphen(word: &str) -> bool
    ensures { result ≡ has_hyphen word.now }
{
    match word.as_bytes().first() {
        Some(first) => *first == b'-',
        None => false,
    }
}

/// The slug that a word is.
fn slug_read(alloc: Global, word: &str) -> Result<Option<Slug>, Memory>
    ensures some { IfOk result (λ slug. IfSome slug (λ it. (it ≡ word.now) × (is_slug word.now ≡ true))) }
    ensures none { IfOk result (λ slug. IfNone slug (is_slug word.now ≡ false)) }
{
    match Slug::new(alloc, word) {
        Ok(slug) => Ok(Some(slug)),
        Err(NameFault::Memory) => Err(Memory),
        Err(NameFault::Empty) => Ok(None),
        Err(NameFault::TooLong) => Ok(None),
        Err(NameFault::BadChar(_)) => Ok(None),
    }
}

/// Whether these are decimal digits, or nothing.
fn all_digits(digits: &[u8]) -> bool
    ensures { result ≡ all_ascii_digits digits.now }
{
    for digit in digits {
        if !digit.is_ascii_digit() {
            return false;
        }
    }
    true
}

/// Whether a word has decimal digits alone.
fn has_digits(word: &str) -> bool
    ensures { result ≡ all_ascii_digits word.now }
{
    all_digits(word.as_bytes())
}

/// The number below 2^32 that a word spells in decimal digits. Zeros may lead. Cost: the digits.
pub fn number_read(word: &str) -> Option<u32>
    ensures { result ≡ number_read word.now }
{
    if !has_digits(word) {
        return None;
    }
    word.parse::<u32>().ok()
}

/// The level of the tree of types that a word spells, from 0 to 254.
fn level_read(word: &str) -> Option<u8>
    ensures { result ≡ option_and_then level_of (number_read word.now) }
{
    match number_read(word) {
        Some(number) => {
            if number < 255 {
                Some(number as u8)
            } else {
                None
            }
        }
        None => None,
    }
}

// ---- commands by the number of their words

/// The job of a single word.
fn alone<'w>(name: &str) -> Option<Job<'w>>
    ensures { option_map command_in result ≡ alone name.now }
{
    if name == "--help" {
        return Some(Job::Help);
    }
    if name == "--version" {
        return Some(Job::Version);
    }
    None
}

/// The session of a number, where a word spells one.
fn demo_of<'w>(number: &str) -> Option<Job<'w>>
    ensures { option_map command_in result ≡ demo_of (number_read number.now) }
{
    match number_read(number) {
        Some(number) => Some(Job::Demo { number }),
        None => None,
    }
}

/// The job of a command's name and one word more.
fn with_one<'w>(name: &str, a: &'w str) -> Option<Job<'w>>
    ensures { option_map command_in result ≡ with_one name.now a.now }
{
    if name == "session" {
        return Some(Job::Session { book: a });
    }
    if name == "agree" {
        return Some(Job::Book(BookJob::Agree { book: a }));
    }
    if name == "scores" {
        return Some(Job::Book(BookJob::Scores { book: a }));
    }
    if name == "progress" {
        return Some(Job::Book(BookJob::Progress { book: a }));
    }
    if name == "snapshots" {
        return Some(Job::Book(BookJob::Snapshots { book: a }));
    }
    if name == "demo" {
        return demo_of(a);
    }
    None
}

/// Another file of a project, where two words are two.
fn compact_of<'w>(book: &'w str, made: &'w str) -> Option<Job<'w>>
    ensures { option_map command_in result ≡ compact_of book.now made.now }
{
    if book == made {
        None
    } else {
        Some(Job::Compact { book, made })
    }
}

/// The job of a command's name and two words more.
fn with_two<'w>(name: &str, a: &'w str, b: &'w str) -> Option<Job<'w>>
    ensures { option_map command_in result ≡ with_two name.now a.now b.now }
{
    if name == "try" {
        return Some(Job::Try { conf: a, text: b });
    }
    if name == "compact" {
        return compact_of(a, b);
    }
    if name == "curated" {
        return match number_read(b) {
            Some(number) => Some(Job::Book(BookJob::Curated { book: a, number })),
            None => None,
        };
    }
    None
}

/// The committed layer of an annotator on a document, where two words may name them.
fn export_of<'w>(
    alloc: Global,
    book: &'w str,
    who: &str,
    name: &str,
) -> Result<Option<Job<'w>>, Memory>
    ensures { IfOk result (λ job. option_map command_in job ≡ export_of book.now who.now name.now) }
{
    let Some(who) = slug_read(alloc, who)? else {
        return Ok(None);
    };
    let Some(name) = slug_read(alloc, name)? else {
        return Ok(None);
    };
    Ok(Some(Job::Book(BookJob::Export { book, who, name })))
}

/// The columns of the committed layer of an annotator on a document, where two words may name them.
fn columns_of<'w>(
    alloc: Global,
    book: &'w str,
    who: &str,
    name: &str,
) -> Result<Option<Job<'w>>, Memory>
    ensures { IfOk result (λ job. option_map command_in job ≡ columns_of book.now who.now name.now) }
{
    let Some(who) = slug_read(alloc, who)? else {
        return Ok(None);
    };
    let Some(name) = slug_read(alloc, name)? else {
        return Ok(None);
    };
    Ok(Some(Job::Book(BookJob::ColumnsOut { book, who, name })))
}

/// The job of a command's name and three words more.
fn with_three<'w>(
    alloc: Global,
    name: &str,
    a: &'w str,
    b: &'w str,
    c: &'w str,
) -> Result<Option<Job<'w>>, Memory>
    ensures { IfOk result (λ job. option_map command_in job ≡ with_three name.now a.now b.now c.now) }
{
    if name == "verify" {
        return Ok(Some(Job::Verify {
            conf: a,
            text: b,
            ann: c,
        }));
    }
    if name == "columns-in" {
        return Ok(Some(Job::ColumnsIn {
            conf: a,
            text: b,
            columns: c,
        }));
    }
    if name == "found" {
        return Ok(Some(Job::Book(BookJob::Found {
            book: a,
            conf: b,
            roster: c,
            level: 255,
        })));
    }
    if name == "export" {
        return export_of(alloc, a, b, c);
    }
    if name == "columns-out" {
        return columns_of(alloc, a, b, c);
    }
    Ok(None)
}

/// A document more of a caller, where two words may name them.
fn add_of<'w>(
    alloc: Global,
    book: &'w str,
    caller: &str,
    name: &str,
    text: &'w str,
) -> Result<Option<Job<'w>>, Memory>
    ensures { IfOk result (λ job. option_map command_in job ≡ add_of book.now caller.now name.now text.now) }
{
    let Some(caller) = slug_read(alloc, caller)? else {
        return Ok(None);
    };
    let Some(name) = slug_read(alloc, name)? else {
        return Ok(None);
    };
    Ok(Some(Job::Book(BookJob::Add {
        book,
        caller,
        name,
        text,
    })))
}

/// The layer of an .ann file for an annotator on a document, where two words may name them.
fn import_of<'w>(
    alloc: Global,
    book: &'w str,
    who: &str,
    name: &str,
    ann: &'w str,
) -> Result<Option<Job<'w>>, Memory>
    ensures { IfOk result (λ job. option_map command_in job ≡ import_of book.now who.now name.now ann.now) }
{
    let Some(who) = slug_read(alloc, who)? else {
        return Ok(None);
    };
    let Some(name) = slug_read(alloc, name)? else {
        return Ok(None);
    };
    Ok(Some(Job::Book(BookJob::Import {
        book,
        who,
        name,
        ann,
    })))
}

/// A project in a file at a level, where a word spells one.
fn found_at<'w>(book: &'w str, conf: &'w str, roster: &'w str, level: &str) -> Option<Job<'w>>
    ensures { option_map command_in result ≡ found_at book.now conf.now roster.now (option_and_then level_of (number_read level.now)) }
{
    match level_read(level) {
        Some(level) => Some(Job::Book(BookJob::Found {
            book,
            conf,
            roster,
            level,
        })),
        None => None,
    }
}

/// The job of a command's name and four words more.
fn with_four<'w>(
    alloc: Global,
    name: &str,
    a: &'w str,
    b: &'w str,
    c: &'w str,
    d: &'w str,
) -> Result<Option<Job<'w>>, Memory>
    ensures { IfOk result (λ job. option_map command_in job ≡ with_four name.now a.now b.now c.now d.now) }
{
    if name == "add" {
        return add_of(alloc, a, b, c, d);
    }
    if name == "import" {
        return import_of(alloc, a, b, c, d);
    }
    if name == "found-at" {
        return Ok(found_at(a, b, c, d));
    }
    Ok(None)
}

/// The job of a command's name and one word more, which does not begin with a hyphen.
fn of_one<'w>(name: &str, a: &'w str) -> Option<Job<'w>>
    ensures { option_map command_in result ≡ unless_hyphens (has_hyphen a.now) (with_one name.now a.now) }
{
    if has_hyphen(a) {
        None
    } else {
        with_one(name, a)
    }
}

/// The job of a command's name and two words more, none of which begins with a hyphen.
fn of_two<'w>(name: &str, a: &'w str, b: &'w str) -> Option<Job<'w>>
    ensures { option_map command_in result ≡ unless_hyphens (has_hyphen a.now || has_hyphen b.now) (with_two name.now a.now b.now) }
{
    if has_hyphen(a) || has_hyphen(b) {
        None
    } else {
        with_two(name, a, b)
    }
}

/// The job of a command's name and three words more, none of which begins with a hyphen.
fn of_three<'w>(
    alloc: Global,
    name: &str,
    a: &'w str,
    b: &'w str,
    c: &'w str,
) -> Result<Option<Job<'w>>, Memory>
    ensures { IfOk result (λ job. option_map command_in job ≡ unless_hyphens (has_hyphen a.now || has_hyphen b.now || has_hyphen c.now) (with_three name.now a.now b.now c.now)) }
{
    if has_hyphen(a) || has_hyphen(b) || has_hyphen(c) {
        Ok(None)
    } else {
        with_three(alloc, name, a, b, c)
    }
}

/// The job of a command's name and four words more, none of which begins with a hyphen.
fn of_four<'w>(
    alloc: Global,
    name: &str,
    a: &'w str,
    b: &'w str,
    c: &'w str,
    d: &'w str,
) -> Result<Option<Job<'w>>, Memory>
    ensures { IfOk result (λ job. option_map command_in job ≡ unless_hyphens (has_hyphen a.now || has_hyphen b.now || has_hyphen c.now || has_hyphen d.now) (with_four name.now a.now b.now c.now d.now)) }
{
    if has_hyphen(a) || has_hyphen(b) || has_hyphen(c) || has_hyphen(d) {
        Ok(None)
    } else {
        with_four(alloc, name, a, b, c, d)
    }
}

/// What the words ask, where they are a command.
pub fn job_of(alloc: Global, words: &[String]) -> Result<Option<Job<'_>>, Memory>
    ensures { IfOk result (λ job. option_map command_in job ≡ command_of (map string_bytes words.now)) }
{
    let count = words.len();
    if count < 1 {
        return Ok(None);
    }
    if count > 5 {
        return Ok(None);
    }
    match words {
        [name] => Ok(alone(name.as_str())),
        [name, a] => Ok(of_one(name.as_str(), a.as_str())),
        [name, a, b] => Ok(of_two(name.as_str(), a.as_str(), b.as_str())),
        [name, a, b, c] => of_three(alloc, name.as_str(), a.as_str(), b.as_str(), c.as_str()),
        [name, a, b, c, d] => of_four(
            alloc,
            name.as_str(),
            a.as_str(),
            b.as_str(),
            c.as_str(),
            d.as_str(),
        ),
        _ => unreachable!(),
    }
}
