//! The host over the system's files. What it tells of them is nothing.
//!
//! It is the trusted edge: no contract says what a file holds. What it promises is what the trait `Host` asks of every host: a call fails only
//! where the count of faults rises. The file that was appended to last stays open, so that a text of many lines is not opened for each of them.
#![tactic(auto)]

ghost use Rattle.std.specs.Prelude.{◌≤◌, length, IfOk, ◌≡◌};
ghost use Rattle.amh_host.specs.Causes.{HasCause};
ghost use Rattle.amh_host.specs.Seen.{nothing_told};

use amh_host::{Host, HostStop, NoMemory, Text};
use std::alloc::Global;
use std::fs::{self, OpenOptions};
use std::io::{self, Read, Seek, SeekFrom, Write};
use std::rt::Files;

/// The file that was appended to last, which is still open.
#[derive(Drop)]
struct LastFile<F: Drop> {
    name: Text,
    file: F,
}

/// The host over the system's files and standard streams: `say` writes to standard output, `warn` to standard error. It counts each error.
#[derive(Drop)]
pub struct DiskHost<R: Files + Drop> {
    alloc: Global,
    rt: R,
    faults: u64,
    last: Option<LastFile<R::File>>,
}

impl<R: Files + Print + Eprint + Drop> DiskHost<R> {
    /// A host over the runtime's files and streams, without a fault so far.
    pub fn new(alloc: Global, rt: R) -> Self
        ensures { result.faults ≡ 0 }
    {
        DiskHost {
            alloc,
            rt,
            faults: 0,
            last: None,
        }
    }

    fn append(&mut self, name: &str, piece: &[u8]) -> io::Result<()>
        ensures { self.new.faults ≡ self.old.faults }
    {
        if let Some(last) = &mut self.last {
            if last.name.is(name) {
                return last.file.write_all(piece);
            }
        }
        let mut file = OpenOptions::new().append(true).open(&self.rt, name)?;
        file.write_all(piece)?;
        self.last = kept(self.alloc, name, file);
        Ok(())
    }
}

// A file with its name; one whose name finds no memory is closed.
fn kept<F: Drop>(alloc: Global, name: &str, file: F) -> Option<LastFile<F>> {
    match named(alloc, name) {
        Ok(name) => Some(LastFile { name, file }),
        Err(_) => None,
    }
}

fn named(alloc: Global, name: &str) -> Result<Text, NoMemory> {
    let mut copy = Text::new(alloc);
    copy.push(name)?;
    Ok(copy)
}

fn read_at<R: Files>(rt: &R, name: &str, at: u64, into: &mut [u8]) -> io::Result<usize>
    ensures { IfOk result (λ n. n ≤ length into.new) }
{
    let mut file = fs::open(rt, name)?;
    file.seek(SeekFrom::Start(at))?;
    file.read(into)
}

fn empty<R: Files>(rt: &R, name: &str) -> io::Result<()> {
    fs::create(rt, name)?;
    Ok(())
}

// What was done, with one more fault where it failed.
fn told<T: Drop>(done: io::Result<T>, faults: &mut u64) -> Result<T, HostStop>
    ensures cause { HasCause faults.old faults.new result }
    ensures same { IfOk result (λ x. done ≡ Ok x) }
{
    match done {
        Ok(x) => Ok(x),
        Err(_) => {
            *faults = faults.saturating_add(1);
            Err(HostStop::Failed)
        }
    }
}

impl<R: Files + Print + Eprint + Drop> Host for DiskHost<R> {
    ghost seen = { λ _. nothing_told };

    ghost faults = { λ h. h.faults };

    fn read(&mut self, name: &str, at: u64, into: &mut [u8]) -> Result<usize, HostStop> {
        told(read_at(&self.rt, name, at, into), &mut self.faults)
    }

    fn start(&mut self, name: &str) -> Result<(), HostStop> {
        self.last = None;
        told(empty(&self.rt, name), &mut self.faults)
    }

    fn put(&mut self, name: &str, piece: &[u8]) -> Result<(), HostStop> {
        let done = self.append(name, piece);
        told(done, &mut self.faults)
    }

    fn say(&mut self, text: &str) -> Result<(), HostStop> {
        told(self.rt.print(text), &mut self.faults)
    }

    fn warn(&mut self, text: &str) -> Result<(), HostStop> {
        told(self.rt.eprint(text), &mut self.faults)
    }
}
