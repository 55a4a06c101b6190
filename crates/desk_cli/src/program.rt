//! The program: its words, and the commands that they name.
ghost use Rattle.std.specs.Prelude.{◌≡◌, ◌≢◌, ◌≤◌, [], drop, map, IfOk, IfErr, OnErr, string_bytes};
ghost use Rattle.std.specs.Vec.Iter.{into_iter_items};
ghost use Rattle.desk_cli.specs.Commands.{RunsHere, RunsSynced};
ghost use Rattle.desk_cli.specs.Programs.{words_in, GivesStarted, IsNotTextFault, RunsStarted, RunsWords};

use crate::dispatch::{print_line_fault, run_over};
use cli_commands::Status;
use cli_words::{Command, LineFault, Syncs, command_of};
use http_session::{HostNetwork, Listener, Network};
use io_retries::{Sink, Source};
use sql_files::{Closes, DeskFiles, FileFrom, HostFiles, HostStart, Opened, Unknown, Wary};
use sqlite_disk::Disk;
use std::alloc::{AllocError, Global};
use std::env::Args;
use std::fs::File;
use std::io::ErrorKind;
use std::net::{TcpListener, TcpStream};
use std::{env, io};

/// Carries out a command as `run_over` does, over the files and the network of the host.
///
/// The command's `Syncs` say how a desk's file is opened. Both starts assume that a write that a power failure
/// interrupts changes no byte outside of it. `Wary` syncs each commit twice and assumes nothing about the bytes
/// of the write. `Unknown` syncs once and assumes that each of them is the old one or the new one.
///
/// No contract knows the contents of the host's files, and the facts of its files and its network are empty.
/// The contract of `run_over` states the promise for all files and networks.
pub fn run<R: Source, W: Sink>(
    rt: &HostRuntime,
    command: &Command<'_>,
    reader: &mut R,
    writer: &mut W,
) -> Status
    ensures { RunsSynced
        ⟦<HostFiles<'static, Unknown> as DeskFiles>⟧ ⟦<FileFrom<Unknown> as Disk>⟧
        ⟦<HostFiles<'static, Unknown> as Closes<Opened<FileFrom<Unknown>>>>⟧
        ⟦<HostFiles<'static, Wary> as DeskFiles>⟧ ⟦<FileFrom<Wary> as Disk>⟧
        ⟦<HostFiles<'static, Wary> as Closes<Opened<FileFrom<Wary>>>>⟧
        ⟦<File as Source>⟧ ⟦<HostNetwork<'static, HostRuntime> as Network>⟧ ⟦<TcpListener as Listener>⟧
        ⟦<TcpStream as http_session::Connection>⟧ ⟦<TcpStream as Source>⟧ ⟦<TcpStream as Sink>⟧
        R.Source W.Sink reader.old reader.new command.now writer.old writer.new result }
{
    match command.syncs() {
        Syncs::Once => run_here(rt, Unknown, command, reader, writer),
        Syncs::Twice => run_here(rt, Wary, command, reader, writer),
    }
}

// Carries out a command over the host's files, which are opened by this start.
fn run_here<S: HostStart, R: Source, W: Sink>(
    rt: &HostRuntime,
    start: S,
    command: &Command<'_>,
    reader: &mut R,
    writer: &mut W,
) -> Status
    ensures { RunsHere ⟦<HostFiles<'static, S> as DeskFiles>⟧ ⟦<FileFrom<S> as Disk>⟧
        ⟦<File as Source>⟧ ⟦<HostNetwork<'static, HostRuntime> as Network>⟧ ⟦<TcpListener as Listener>⟧
        ⟦<TcpStream as http_session::Connection>⟧ ⟦<TcpStream as Source>⟧ ⟦<TcpStream as Sink>⟧
        ⟦<HostFiles<'static, S> as Closes<Opened<FileFrom<S>>>>⟧
        R.Source W.Sink reader.old reader.new command.now writer.old writer.new result }
{
    run_over(
        rt.alloc(),
        &mut HostFiles::new(rt, start),
        &mut HostNetwork::new(rt),
        command,
        reader,
        writer,
    )
}

/// Carries out the command that the words after the program's name give, over this reader and writer, and
/// returns the exit status.
pub fn run_words<R: Source, W: Sink>(
    rt: &HostRuntime,
    words: &[&str],
    reader: &mut R,
    writer: &mut W,
) -> u8
    ensures runs { RunsWords W.Sink (reader.new ≡ reader.old) (RunsSynced
        ⟦<HostFiles<'static, Unknown> as DeskFiles>⟧ ⟦<FileFrom<Unknown> as Disk>⟧
        ⟦<HostFiles<'static, Unknown> as Closes<Opened<FileFrom<Unknown>>>>⟧
        ⟦<HostFiles<'static, Wary> as DeskFiles>⟧ ⟦<FileFrom<Wary> as Disk>⟧
        ⟦<HostFiles<'static, Wary> as Closes<Opened<FileFrom<Wary>>>>⟧
        ⟦<File as Source>⟧ ⟦<HostNetwork<'static, HostRuntime> as Network>⟧ ⟦<TcpListener as Listener>⟧
        ⟦<TcpStream as http_session::Connection>⟧ ⟦<TcpStream as Source>⟧ ⟦<TcpStream as Sink>⟧
        R.Source W.Sink reader.old reader.new)
        writer.old writer.new (words_in words.now) result }
    ensures status { result ≤ 3 }
{
    match command_of(rt.alloc(), words) {
        Ok(command) => run(rt, &command, reader, writer).code(),
        Err(fault) => print_line_fault(writer, &fault),
    }
}

/// Carries out the command that the program's words give, over this reader and writer, and returns the exit
/// status. The first word is the program's name. If the words could not be read, it prints the fault, or the
/// write of it failed and the status is 3.
pub fn run_started<R: Source, W: Sink>(
    rt: &HostRuntime,
    started: Result<Vec<String>, LineFault>,
    reader: &mut R,
    writer: &mut W,
) -> u8
    ensures runs { RunsStarted W.Sink (reader.new ≡ reader.old) (RunsSynced
        ⟦<HostFiles<'static, Unknown> as DeskFiles>⟧ ⟦<FileFrom<Unknown> as Disk>⟧
        ⟦<HostFiles<'static, Unknown> as Closes<Opened<FileFrom<Unknown>>>>⟧
        ⟦<HostFiles<'static, Wary> as DeskFiles>⟧ ⟦<FileFrom<Wary> as Disk>⟧
        ⟦<HostFiles<'static, Wary> as Closes<Opened<FileFrom<Wary>>>>⟧
        ⟦<File as Source>⟧ ⟦<HostNetwork<'static, HostRuntime> as Network>⟧ ⟦<TcpListener as Listener>⟧
        ⟦<TcpStream as http_session::Connection>⟧ ⟦<TcpStream as Source>⟧ ⟦<TcpStream as Sink>⟧
        R.Source W.Sink reader.old reader.new)
        writer.old writer.new started result }
    ensures status { result ≤ 3 }
{
    let words = match started {
        Ok(words) => words,
        Err(fault) => return print_line_fault(writer, &fault),
    };
    match texts_after_name(rt.alloc(), &words) {
        Ok(texts) => run_words(rt, &texts, reader, writer),
        Err(_) => print_line_fault(writer, &LineFault::NoMemory),
    }
}

// The texts of all words but the first. If there are none, this takes no memory.
fn texts_after_name<'a>(alloc: Global, words: &'a [String]) -> Result<Vec<&'a str>, AllocError>
    ensures texts { IfOk result
        (λ texts. words_in texts.items ≡ map string_bytes (drop 1 words.now)) }
    ensures memory { OnErr result (drop 1 words.now ≢ []) }
{
    let mut texts = Vec::new(alloc);
    let Some((_name, rest)) = words.split_first() else {
        return Ok(texts);
    };
    for word in rest {
        texts.push(word.as_str())?;
    }
    Ok(texts)
}

/// Carries out the command that the program's own words give, over standard input and output, and returns
/// the exit status.
///
/// No contract knows the words, or what standard input and output have. The promises are those of
/// `started_words` and `run_started`, which this function joins.
pub fn run_program(rt: &HostRuntime) -> u8
    ensures { result ≤ 3 }
{
    let started = started_words(rt.alloc(), env::args(rt));
    run_started(rt, started, &mut rt.reader(), &mut io::writer(rt))
}

/// Returns the words that the program was started with, its name first.
///
/// There is an error if a word is not UTF-8, which is wrong usage, or if memory runs out.
pub fn started_words(alloc: Global, given: io::Result<Args>) -> Result<Vec<String>, LineFault>
    ensures { GivesStarted given result }
{
    match given {
        Ok(words) => collected(alloc, words),
        Err(error) if error.kind() == ErrorKind::InvalidData => Err(not_text_fault(alloc)),
        Err(_) => Err(LineFault::NoMemory),
    }
}

fn collected(alloc: Global, words: Args) -> Result<Vec<String>, LineFault>
    ensures words { IfOk result (λ found. found.items ≡ into_iter_items words) }
    ensures memory { IfErr result (λ fault. fault ≡ LineFault.NoMemory) }
{
    match words.collect(alloc) {
        Ok(found) => Ok(found),
        Err(_) => Err(LineFault::NoMemory),
    }
}

fn not_text_fault(alloc: Global) -> LineFault
    ensures { IsNotTextFault result }
{
    match String::from_str(alloc, "error: a word of the command line is not UTF-8\n") {
        Ok(text) => LineFault::Usage(text),
        Err(_) => LineFault::NoMemory,
    }
}
