//! The folder that the program runs in.

ghost use Rattle.std.specs.Prelude.{◌≡◌, ◌≤◌, None, false, IfOk, IsErrOf, OnErr, IsSome, IsNone};
ghost use Rattle.ob_io.specs.Io.{HasCause, ReadHasCause, FitsIn, Rose};

use ob_io::{Failed, Folder, FolderFault, Shelf};
use std::alloc::{AllocError, Global};
use std::fs::File;
use std::io::{Error, ErrorKind, Read, Write};
use std::rt::Files;
use std::{fmt, fs};

/// What was tried of a file.
#[derive(Clone, Copy, PartialEq, Eq, Debug, Drop)]
pub enum Operation {
    /// To open it, for reading.
    Open,
    /// To read it.
    Read,
    /// To create the file that is to replace it.
    Create,
    /// To write the file that is to replace it.
    Write,
    /// To give the written file its name.
    Rename,
}

impl fmt::Display for Operation {
    fn fmt<W: fmt::Write>(&self, f: &mut fmt::Formatter<W>) -> fmt::Result {
        f.write_str(match self {
            Operation::Open => "opened",
            Operation::Read => "read",
            Operation::Create => "created",
            Operation::Write => "written",
            Operation::Rename => "replaced",
        })
    }
}

/// A file that could not be had or replaced.
#[derive(Drop)]
pub struct Lost {
    // None where there was no memory for it
    name: Option<String>,
    operation: Operation,
    error: Error,
}

impl fmt::Display for Lost {
    fn fmt<W: fmt::Write>(&self, f: &mut fmt::Formatter<W>) -> fmt::Result {
        let name = match &self.name {
            Some(name) => name.as_str(),
            None => "a file",
        };
        let operation = self.operation;
        let error = self.error;
        write!(f, "{name} could not be {operation}: {error}")
    }
}

/// The most names that are tried for one new file.
const TRIES: u32 = 1000;

/// The files of the folder that the program runs in. It tells nothing of them. It counts each error but that of a file
/// that is not there, and keeps what was lost by the last.
///
/// A file is replaced by a new one, which has a name of its own while it is written: the process's number is in it, a
/// name that is taken is passed over, and it begins with a dot, as no name does that a script can say. After a failure
/// that file is removed, and the old one stands.
#[derive(Drop)]
pub struct RealFolder<R> {
    rt: R,
    alloc: Global,
    process: u32,
    // the name of the new file
    own: String,
    faults: u64,
    lost: Option<Lost>,
}

impl<R: Files> RealFolder<R> {
    /// The folder of the process with this number.
    pub fn new(alloc: Global, rt: R, process: u32) -> Result<RealFolder<R>, AllocError>
    where
        R: Drop,
        ensures process { IfOk result (λ f. f.process ≡ process) }
        ensures faults { IfOk result (λ f. f.faults ≡ 0) }
        ensures lost { IfOk result (λ f. IsNone f.lost) }
    {
        Ok(RealFolder {
            rt,
            alloc,
            process,
            own: String::with_capacity(alloc, 64)?,
            faults: 0,
            lost: None,
        })
    }

    // Counts a fault.
    fn lose(&mut self, name: &str, operation: Operation, error: Error)
        ensures later { self.old.faults ≤ self.new.faults }
        ensures rose { Rose self.old.faults self.new.faults }
        ensures lost { IsSome self.new.lost }
    {
        self.faults = self.faults.saturating_add(1);
        self.lost = Some(Lost {
            name: String::from_str(self.alloc, name).ok(),
            operation,
            error,
        });
    }

    // Creates an empty file whose name no other file has.
    fn create_own(&mut self) -> Result<R::File, Error>
        ensures { self.new.faults ≡ self.old.faults }
    {
        for number in 0..TRIES {
            self.own.clear();
            let process = self.process;
            write!(self.own, ".oberon-{process}-{number}.tmp")?;
            match File::create_new(&self.rt, self.own.as_str()) {
                Err(error) if error.kind() == ErrorKind::AlreadyExists => {}
                result => return result,
            }
        }
        Err(Error::from(ErrorKind::AlreadyExists))
    }

    // Writes a new file, and gives it the name.
    fn put(&mut self, name: &str, bytes: &[u8]) -> Result<(), (Operation, Error)>
        ensures { self.new.faults ≡ self.old.faults }
    {
        let mut file = self
            .create_own()
            .map_err(|error| (Operation::Create, error))?;
        let written = file.write_all(bytes);
        drop(file);
        let put = match written {
            Ok(()) => fs::rename(&self.rt, self.own.as_str(), name).map_err(|error| (
                Operation::Rename,
                error,
            )),
            Err(error) => Err((Operation::Write, error)),
        };
        if put.is_err() {
            let _ = fs::remove_file(&self.rt, self.own.as_str());
        }
        put
    }
}

impl<R> RealFolder<R> {
    /// What was lost by the last fault.
    pub fn lost(&self) -> Option<&Lost>
        ensures { IsSome self.now.lost → IsSome result }
    {
        self.lost.as_ref()
    }
}

impl<R: Files> Shelf for RealFolder<R> {
    ghost tells = { λ _. false };

    ghost files = { λ _ _. None };

    ghost faults = { λ s. s.faults };

    /// Where the folder failed, what was lost is kept.
    fn read(
        &mut self,
        alloc: Global,
        name: &str,
        limit: usize,
    ) -> Result<Option<Vec<u8>>, FolderFault>
        ensures bound { IfOk result (FitsIn limit) }
        ensures cause { ReadHasCause self.old.faults self.new.faults result }
        ensures lost { IsErrOf result FolderFault.Failed → IsSome self.new.lost }
    {
        let mut file = match fs::open(&self.rt, name) {
            Ok(file) => file,
            Err(error) => {
                if error.kind() == ErrorKind::NotFound {
                    return Ok(None);
                }
                self.lose(name, Operation::Open, error);
                return Err(FolderFault::Failed);
            }
        };
        let mut bytes = Vec::new(alloc);
        let mut buf = [0u8; 4096];
        'pieces: while bytes.len() <= limit {
            let count = match file.read(&mut buf) {
                Ok(count) => count,
                Err(error) => {
                    self.lose(name, Operation::Read, error);
                    return Err(FolderFault::Failed);
                }
            };
            if count == 0 {
                return Ok(Some(bytes));
            }
            if bytes.extend_from_slice(&buf[..count]).is_err() {
                return Err(FolderFault::Memory);
            }
        }
        Err(FolderFault::Long)
    }
}

impl<R: Files> Folder for RealFolder<R> {
    /// After a failed replace what was lost is kept.
    fn replace(&mut self, name: &str, bytes: &[u8]) -> Result<(), Failed>
        ensures cause { HasCause self.old.faults self.new.faults result }
        ensures lost { OnErr result (IsSome self.new.lost) }
    {
        match self.put(name, bytes) {
            Ok(()) => Ok(()),
            Err((operation, error)) => {
                self.lose(name, operation, error);
                Err(Failed)
            }
        }
    }
}
