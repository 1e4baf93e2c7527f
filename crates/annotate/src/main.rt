//! The program: it gives [`run`] the words of its command and the real world, which is the files of the
//! system, as a folder and as disks, standard input and output as the console, standard error for the one line of a
//! run that does not do its job and for where a project is served, and the ports of this machine as doors.
#![tactic(auto)]

mod console;
mod error_sink;
mod file_folder;
mod tcp_door;
mod tcp_doors;
mod tcp_link;
#[cfg(test)]
mod tests;

use crate::console::Console;
use crate::error_sink::ErrorSink;
use crate::file_folder::FileFolder;
use crate::tcp_doors::TcpDoors;
use annotation_program::{World, run};
use mark_base::Sink;
use named_disks::FileDisks;
use program_inputs::{Trouble, end_run};
use std::env;
use std::fs::{File, OpenOptions};
use std::io::{self, ErrorKind};
use std::process::ExitCode;
use std::rt::Files;

/// Opens the null device for reading and writing.
fn null_device<R: Files<File = File>>(rt: &R) -> io::Result<File> {
    OpenOptions::new()
        .read(true)
        .write(true)
        .open(rt, "/dev/null")
}

/// The words after the program's name.
fn words(rt: &HostRuntime) -> io::Result<Vec<String>> {
    let mut words = Vec::new(rt.alloc());
    for word in env::args(rt)?.skip(1) {
        words.push(word)?;
    }
    Ok(words)
}

/// Why the words were not had: a word that is no text is a word of no command, and else memory ran out.
fn words_trouble(error: &io::Error) -> Trouble {
    if error.kind() == ErrorKind::InvalidData {
        Trouble::Usage
    } else {
        Trouble::Memory
    }
}

/// Says a trouble that comes before any command, and gives the status.
fn end_early<P: Sink>(rt: &HostRuntime, complaint: &mut P, trouble: Trouble) -> ExitCode {
    ExitCode::from(end_run(rt.alloc(), complaint, Err(trouble), false))
}

fn main(rt: HostRuntime) -> ExitCode {
    // A file takes the lowest descriptor that is free. After three that are opened first, 0 to 2 are taken, so that what is
    // printed goes to no other file, whatever the caller has closed.
    let _taken = [null_device(&rt), null_device(&rt), null_device(&rt)];
    let mut complaint = ErrorSink::new(rt.stderr());
    let words = match words(&rt) {
        Ok(words) => words,
        Err(error) => return end_early(&rt, &mut complaint, words_trouble(&error)),
    };
    let folder = match rt.clone() {
        Ok(rt) => FileFolder::new(rt),
        Err(_) => return end_early(&rt, &mut complaint, Trouble::Memory),
    };
    let disks = match rt.clone() {
        Ok(rt) => FileDisks::new(rt),
        Err(_) => return end_early(&rt, &mut complaint, Trouble::Memory),
    };
    let doors = match rt.clone() {
        Ok(of_doors) => TcpDoors::new(of_doors, rt.stderr()),
        Err(_) => return end_early(&rt, &mut complaint, Trouble::Memory),
    };
    let mut world = World {
        folder,
        console: Console::new(rt.stdin(), rt.stdout()),
        complaint,
        disks,
        doors,
    };
    ExitCode::from(run(&rt, rt.alloc(), &words, &mut world))
}
