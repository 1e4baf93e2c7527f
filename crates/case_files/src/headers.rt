//! The headers of sections: what stands behind `-- `.

/// How the lines of a section are its bytes.
#[derive(Clone, Copy, Debug, PartialEq, Eq)]
pub enum Form {
    /// Each line with its LF.
    Lines,
    /// The lines with LF between them, and none behind the last.
    Joined,
    /// The lines with nothing between them, and with escapes.
    Escaped,
    /// Each line is an entry in hexadecimal digits, and all of them are a journal of this version.
    Records { version: u32 },
}

/// A device of the world whose calls can fail by number.
#[derive(Clone, Copy, Debug, PartialEq, Eq)]
pub enum Device {
    Folder,
    /// The memory for what the folder reads.
    Memory,
    Read,
    Write,
    Complaint,
    Disks,
}

/// How often a message comes at most.
const MOST_TIMES: u32 = 1_000_000;

/// A request: its first line and its fields. The body stands in the section.
#[derive(Clone, Copy, Debug)]
pub struct Ask<'f> {
    pub method: &'f str,
    pub target: &'f str,
    pub caller: &'f str,
    pub form: Form,
    /// How often it comes, where that is said.
    pub times: Option<u32>,
    pub close: bool,
}

/// An answer: its first line and its fields. The body stands in the section.
#[derive(Clone, Copy, Debug)]
pub struct Answer {
    pub status: u16,
    pub media: &'static str,
    pub form: Form,
    /// The place from here on, where it is another.
    pub place: Option<u64>,
    /// How often it comes, where that is said.
    pub times: Option<u32>,
    pub close: bool,
}

/// What a section is.
#[derive(Clone, Copy, Debug)]
pub enum Header<'f> {
    /// A file of the folder.
    File {
        name: &'f str,
        form: Form,
    },
    /// What the file of a project holds before the first run.
    Disk {
        name: &'f str,
        form: Form,
    },
    /// What comes in on the console.
    Input {
        form: Form,
    },
    /// What has to go out on the console.
    Console {
        form: Form,
    },
    /// What has to be said on the complaint sink.
    Complaint {
        form: Form,
    },
    /// The status that the run has to end with.
    Status {
        status: u8,
    },
    /// The numbers of the calls of a device that fail, as they are written.
    Fails {
        device: Device,
        numbers: &'f str,
    },
    /// The numbers of the calls of the disk of a file that fail, as they are written; behind their effect or without any.
    DiskFails {
        name: &'f str,
        done: bool,
        numbers: &'f str,
    },
    /// Each call of the disk of a file fails in a run of its own, of as many as the run makes.
    EachFails {
        name: &'f str,
        calls: u64,
    },
    /// What the file of a project has to hold when the run is over.
    Stored {
        name: &'f str,
        form: Form,
    },
    /// A run behind that of the case, and the status that it has to end with. What it has to print stands in the section.
    Then {
        status: u8,
        words: &'f str,
        form: Form,
    },
    /// The input comes in one piece only.
    Whole,
    /// A request that comes in on the console.
    Ask(Ask<'f>),
    /// An answer that has to go out on the console.
    Answer(Answer),
}

/// What a section is called. A case has at most one of each name, but for messages and what is looked at behind its run.
#[derive(Clone, Copy, Debug, PartialEq, Eq)]
pub enum Called<'f> {
    File(&'f str),
    Disk(&'f str),
    Input,
    Console,
    Complaint,
    Status,
    Fails(Device),
    DiskFails { name: &'f str, done: bool },
    EachFails,
    Look,
    Whole,
    Ask,
    Answer,
}

impl<'f> Header<'f> {
    /// The name of the section.
    pub fn called(&self) -> Called<'f> {
        match self {
            Header::File { name, .. } => Called::File(name),
            Header::Disk { name, .. } => Called::Disk(name),
            Header::Input { .. } => Called::Input,
            Header::Console { .. } => Called::Console,
            Header::Complaint { .. } => Called::Complaint,
            Header::Status { .. } => Called::Status,
            Header::Fails { device, .. } => Called::Fails(*device),
            Header::DiskFails { name, done, .. } => Called::DiskFails { name, done: *done },
            Header::EachFails { .. } => Called::EachFails,
            Header::Stored { .. } | Header::Then { .. } => Called::Look,
            Header::Whole => Called::Whole,
            Header::Ask(_) => Called::Ask,
            Header::Answer(_) => Called::Answer,
        }
    }

    /// Whether lines may stand below the header.
    pub fn takes_lines(&self) -> bool {
        !matches!(
            self,
            Header::Status { .. }
                | Header::Fails { .. }
                | Header::DiskFails { .. }
                | Header::EachFails { .. }
                | Header::Whole
        )
    }

    /// Whether a case may have several such sections.
    pub fn may_repeat(&self) -> bool {
        matches!(
            self,
            Header::Ask(_) | Header::Answer(_) | Header::Stored { .. } | Header::Then { .. }
        )
    }
}

/// The first word of a text, and what stands behind the space after it.
pub fn split_word(text: &str) -> (&str, &str) {
    match text.split_once(' ') {
        Some((word, rest)) => (word, rest),
        None => (text, ""),
    }
}

/// Whether a text begins with this word, and what stands behind it.
fn take_word<'f>(text: &'f str, wanted: &str) -> (bool, &'f str) {
    let (word, rest) = split_word(text);
    if word == wanted {
        (true, rest)
    } else {
        (false, text)
    }
}

/// The form that the words behind the name of a section say.
fn form_of(rest: &str) -> Option<Form> {
    match rest {
        "" => Some(Form::Lines),
        "escaped" => Some(Form::Escaped),
        _ => None,
    }
}

/// The form that the words behind the name of a project's file say.
fn file_form_of(rest: &str) -> Option<Form> {
    match rest.strip_prefix("records ") {
        Some(version) => Some(Form::Records {
            version: version.parse::<u32>().ok()?,
        }),
        None => form_of(rest),
    }
}

/// A device by its name.
fn device_of(name: &str) -> Option<Device> {
    match name {
        "folder" => Some(Device::Folder),
        "memory" => Some(Device::Memory),
        "read" => Some(Device::Read),
        "write" => Some(Device::Write),
        "complaint" => Some(Device::Complaint),
        "disks" => Some(Device::Disks),
        _ => None,
    }
}

/// The phrase behind a status in the first line of an answer.
pub fn reason(status: u16) -> Option<&'static str> {
    match status {
        200 => Some("OK"),
        201 => Some("Created"),
        400 => Some("Bad Request"),
        401 => Some("Unauthorized"),
        403 => Some("Forbidden"),
        404 => Some("Not Found"),
        405 => Some("Method Not Allowed"),
        409 => Some("Conflict"),
        411 => Some("Length Required"),
        413 => Some("Payload Too Large"),
        422 => Some("Unprocessable Entity"),
        500 => Some("Internal Server Error"),
        501 => Some("Not Implemented"),
        503 => Some("Service Unavailable"),
        507 => Some("Insufficient Storage"),
        _ => None,
    }
}

/// How often a message comes, where that is said, and what stands behind it.
#[derive(Clone, Copy, Debug)]
struct Times<'f> {
    times: Option<u32>,
    rest: &'f str,
}

/// Reads `[times N]`.
fn read_times(text: &str) -> Option<Times<'_>> {
    let (repeated, rest) = take_word(text, "times");
    if !repeated {
        return Some(Times { times: None, rest });
    }
    let (number, rest) = split_word(rest);
    let times = number.parse::<u32>().ok()?;
    if times > MOST_TIMES {
        return None;
    }
    Some(Times {
        times: Some(times),
        rest,
    })
}

/// Reads `METHOD TARGET [by CALLER] [text|escaped] [times N] [close]`.
fn read_ask(rest: &str) -> Option<Ask<'_>> {
    let (method, rest) = split_word(rest);
    let (target, rest) = split_word(rest);
    let (named, rest) = take_word(rest, "by");
    let (caller, rest) = if named {
        split_word(rest)
    } else {
        ("you", rest)
    };
    let (text, rest) = take_word(rest, "text");
    let (escaped, rest) = take_word(rest, "escaped");
    let Times { times, rest } = read_times(rest)?;
    let (close, rest) = take_word(rest, "close");
    let form = match (text, escaped) {
        (true, true) => return None,
        (true, false) => Form::Lines,
        (false, true) => Form::Escaped,
        (false, false) => Form::Joined,
    };
    if method.is_empty() || target.is_empty() || caller.is_empty() || !rest.is_empty() {
        return None;
    }
    Some(Ask {
        method,
        target,
        caller,
        form,
        times,
        close,
    })
}

/// What the body of an answer is: its media type and its form, and what stands behind the word for it.
#[derive(Clone, Copy, Debug)]
struct Body<'f> {
    media: &'static str,
    form: Form,
    rest: &'f str,
}

/// Reads `[text|csv|escaped|escaped-text|escaped-csv]`.
fn read_body(text: &str) -> Body<'_> {
    let (word, rest) = split_word(text);
    match word {
        "text" => Body {
            media: "text/plain; charset=utf-8",
            form: Form::Lines,
            rest,
        },
        "csv" => Body {
            media: "text/csv; charset=utf-8",
            form: Form::Lines,
            rest,
        },
        "escaped" => Body {
            media: "application/json",
            form: Form::Escaped,
            rest,
        },
        "escaped-text" => Body {
            media: "text/plain; charset=utf-8",
            form: Form::Escaped,
            rest,
        },
        "escaped-csv" => Body {
            media: "text/csv; charset=utf-8",
            form: Form::Escaped,
            rest,
        },
        _ => Body {
            media: "application/json",
            form: Form::Joined,
            rest: text,
        },
    }
}

/// Reads `STATUS [text|csv|escaped|escaped-text|escaped-csv] [place N] [times N] [close]`.
fn read_answer(rest: &str) -> Option<Answer> {
    let (status, rest) = split_word(rest);
    let status = status.parse::<u16>().ok()?;
    let _ = reason(status)?;
    let body = read_body(rest);
    let (placed, rest) = take_word(body.rest, "place");
    let (place, rest) = if placed {
        let (number, rest) = split_word(rest);
        (Some(number.parse::<u64>().ok()?), rest)
    } else {
        (None, rest)
    };
    let Times { times, rest } = read_times(rest)?;
    let (close, rest) = take_word(rest, "close");
    if !rest.is_empty() {
        return None;
    }
    Some(Answer {
        status,
        media: body.media,
        form: body.form,
        place,
        times,
        close,
    })
}

/// The numbers that `N` or `N-M` stands for: the first and the last.
#[derive(Clone, Copy, Debug, PartialEq, Eq)]
pub struct Calls {
    pub first: u64,
    pub last: u64,
}

/// How many calls in a row a case may name.
const MOST_CALLS: u64 = 4_096;

/// Reads `N` or `N-M`, M at least N and at most 4,096 numbers in all.
pub fn read_calls(text: &str) -> Option<Calls> {
    let (first, last) = match text.split_once('-') {
        Some((first, last)) => (first.parse::<u64>().ok()?, last.parse::<u64>().ok()?),
        None => {
            let number = text.parse::<u64>().ok()?;
            (number, number)
        }
    };
    if first <= last && last - first < MOST_CALLS {
        Some(Calls { first, last })
    } else {
        None
    }
}

/// Reads what stands behind `NAME each`, the number of calls: 4,096 at most.
fn read_each_fails<'f>(name: &'f str, calls: &str) -> Option<Header<'f>> {
    let calls = calls.parse::<u64>().ok()?;
    if name.is_empty() || calls > MOST_CALLS {
        return None;
    }
    Some(Header::EachFails { name, calls })
}

/// Reads `NAME each N`, or `NAME [done] N[ N..]`, in which `N-M` may stand for N; the numbers are read again when they are used.
fn read_disk_fails(rest: &str) -> Option<Header<'_>> {
    let (name, rest) = split_word(rest);
    let (each, calls) = take_word(rest, "each");
    if each {
        return read_each_fails(name, calls);
    }
    let (done, numbers) = take_word(rest, "done");
    if name.is_empty() || !numbers.split(' ').all(|calls| read_calls(calls).is_some()) {
        return None;
    }
    Some(Header::DiskFails {
        name,
        done,
        numbers,
    })
}

/// A name, and the form that the words behind it say.
#[derive(Clone, Copy, Debug)]
struct Named<'f> {
    name: &'f str,
    form: Form,
}

/// Reads `NAME [escaped|records VERSION]`.
fn read_named(rest: &str) -> Option<Named<'_>> {
    let (name, rest) = split_word(rest);
    let form = file_form_of(rest)?;
    if name.is_empty() {
        None
    } else {
        Some(Named { name, form })
    }
}

/// Reads what the file of a project holds before the first run.
fn read_disk(rest: &str) -> Option<Header<'_>> {
    let Named { name, form } = read_named(rest)?;
    Some(Header::Disk { name, form })
}

/// Reads what the file of a project has to hold.
fn read_stored(rest: &str) -> Option<Header<'_>> {
    let Named { name, form } = read_named(rest)?;
    Some(Header::Stored { name, form })
}

/// Reads `STATUS [escaped] WORDS`.
fn read_then(rest: &str) -> Option<Header<'_>> {
    let (status, rest) = split_word(rest);
    let (escaped, words) = take_word(rest, "escaped");
    Some(Header::Then {
        status: status.parse::<u8>().ok()?,
        words,
        form: if escaped { Form::Escaped } else { Form::Lines },
    })
}

/// Reads `KIND N[ N..]`; the numbers are read when they are used.
fn read_fails(rest: &str) -> Option<Header<'_>> {
    let (device, numbers) = split_word(rest);
    if device == "disk" {
        return read_disk_fails(numbers);
    }
    let device = device_of(device)?;
    if numbers
        .split(' ')
        .all(|number| number.parse::<u64>().is_ok())
    {
        Some(Header::Fails { device, numbers })
    } else {
        None
    }
}

/// Reads a header, without the `-- ` before it.
pub fn read_header(header: &str) -> Option<Header<'_>> {
    let (first, rest) = split_word(header);
    match first {
        "" => None,
        "input" => Some(Header::Input {
            form: form_of(rest)?,
        }),
        "console" => Some(Header::Console {
            form: form_of(rest)?,
        }),
        "complaint" => Some(Header::Complaint {
            form: form_of(rest)?,
        }),
        "status" => Some(Header::Status {
            status: rest.parse::<u8>().ok()?,
        }),
        "disk" => read_disk(rest),
        "fails" => read_fails(rest),
        "stored" => read_stored(rest),
        "then" => read_then(rest),
        "whole" if rest.is_empty() => Some(Header::Whole),
        "ask" => Some(Header::Ask(read_ask(rest)?)),
        "answer" => Some(Header::Answer(read_answer(rest)?)),
        name => Some(Header::File {
            name,
            form: form_of(rest)?,
        }),
    }
}
