//! Files in memory that can also be removed and changed.

ghost use Rattle.std.specs.Prelude.{◌≡◌, ◌≤◌, None, false};
ghost use Rattle.ob_io.specs.Io.{Rose};

use ob_io::{Failed, Folder, FolderFault, MemFolder, Shelf};
use std::alloc::{AllocError, Global};
use std::collections::BTreeMap;

/// Files by their names. As a folder they tell nothing, and fail only where there is no memory.
#[derive(Drop)]
pub struct Files {
    alloc: Global,
    all: BTreeMap<String, Vec<u8>>,
    faults: u64,
}

impl Files {
    pub fn new(alloc: Global) -> Files {
        Files {
            alloc,
            all: BTreeMap::new(alloc),
            faults: 0,
        }
    }

    /// The newest file of each name of a folder.
    pub fn of(alloc: Global, folder: &MemFolder) -> anyhow::Result<Files> {
        let mut files = Files::new(alloc);
        for number in 0..usize::MAX {
            let Some((name, bytes)) = folder.file_at(number) else {
                return Ok(files);
            };
            files.put(str::from_utf8(name)?, bytes)?;
        }
        Ok(files)
    }

    /// How many files there are.
    pub fn len(&self) -> usize {
        self.all.len()
    }

    /// Puts all files in a folder, which has room for so many more files, and bytes in them and in their names, then.
    pub fn put_all(
        &self,
        folder: &mut MemFolder,
        names: usize,
        bytes: usize,
    ) -> anyhow::Result<()> {
        let mut size = bytes;
        for (name, bytes) in &self.all {
            size = size.saturating_add(name.len()).saturating_add(bytes.len());
        }
        folder.reserve(self.len().saturating_add(names), size)?;
        for (name, bytes) in &self.all {
            if folder.replace(name, bytes).is_err() {
                anyhow::bail!("a file was not put");
            }
        }
        Ok(())
    }

    /// The bytes of a file; none where it is not there.
    pub fn bytes(&self, name: &str) -> Option<&[u8]> {
        match self.all.get(name) {
            Some(bytes) => Some(bytes.as_slice()),
            None => None,
        }
    }

    /// From here on the name has these bytes.
    pub fn put(&mut self, name: &str, bytes: &[u8]) -> Result<(), AllocError>
        ensures { self.new.faults ≡ self.old.faults }
    {
        let key = String::from_str(self.alloc, name)?;
        let bytes = bytes.to_vec(self.alloc)?;
        self.all.insert(key, bytes)?;
        Ok(())
    }

    /// From here on the name has no file.
    pub fn remove(&mut self, name: &str) {
        let _ = self.all.remove(name);
    }

    // Counts a fault.
    fn count_fault(&mut self)
        ensures later { self.old.faults ≤ self.new.faults }
        ensures rose { Rose self.old.faults self.new.faults }
    {
        self.faults = self.faults.saturating_add(1);
    }
}

impl Shelf for Files {
    ghost tells = { λ _. false };

    ghost files = { λ _ _. None };

    ghost faults = { λ s. s.faults };

    fn read(
        &mut self,
        alloc: Global,
        name: &str,
        limit: usize,
    ) -> Result<Option<Vec<u8>>, FolderFault> {
        let Some(bytes) = self.all.get(name) else {
            return Ok(None);
        };
        if bytes.len() > limit {
            return Err(FolderFault::Long);
        }
        match bytes.as_slice().to_vec(alloc) {
            Ok(bytes) => Ok(Some(bytes)),
            Err(_) => Err(FolderFault::Memory),
        }
    }
}

impl Folder for Files {
    fn replace(&mut self, name: &str, bytes: &[u8]) -> Result<(), Failed> {
        if self.put(name, bytes).is_err() {
            self.count_fault();
            return Err(Failed);
        }
        Ok(())
    }
}
