// The files that a port writes, one at a time.
ghost use Rattle.std.specs.Prelude.{◌≡◌, ◌+◌, ◌%◌, ◌^◌, None, Err, IsOk, IsSome, IfSome, IfOk, IfErr, OnOk, OnErr, string_bytes};
ghost use Rattle.std.specs.Arc.{arc_value};
ghost use Rattle.hv_dev.specs.Files.{Appended, path_of, path_now, begun_now};
ghost use Rattle.hv_dev.specs.declared.sink.PutFault.TheVariants.{Failed, Memory};

use super::file::StoredFile;
use crate::PutFault;
use std::alloc::{AllocError, Global};
use std::io::Write;
use std::rt::Files;
use std::sync::Arc;
use std::{fs, str};

/// Writes the files of the port of that number in a folder, one at a time.
#[derive(Drop)]
pub struct Writer<R: Files> {
    pub(super) rt: R,
    folder: Arc<Vec<u8>, Global>,
    port: u64,
    /// How many files it has begun, modulo 2^64.
    begun: u64,
    current: Option<Open<R::File>>,
}

/// A file that is being written.
#[derive(Drop)]
struct Open<F> {
    file: F,
    path: String,
}

impl<R: Files> Writer<R> {
    pub fn new(rt: R, folder: Arc<Vec<u8>, Global>, port: u64) -> Writer<R>
        ensures { result ≡ record { rt = rt; folder = folder; port = port; begun = 0; current = None } }
    {
        Writer {
            rt,
            folder,
            port,
            begun: 0,
            current: None,
        }
    }

    /// Puts a page behind those of the open file, or begins one.
    pub fn append(&mut self, alloc: Global, page: &[u8]) -> Result<(), PutFault>
        ensures put { OnOk result (Appended R.File.contents self.old.current self.new.current (path_now self.old.current (arc_value self.old.folder).items self.old.port self.old.begun) page.now) }
        ensures begun { OnOk result (self.new.begun ≡ begun_now self.old.current self.old.begun) }
        ensures open { IfSome self.old.current (λ was. IfSome self.new.current (λ now. now.path ≡ was.path)) }
        ensures stays { IsSome self.old.current → IsSome self.new.current }
        ensures want { result ≡ Err Memory → (self.old.current ≡ None) × (self.new.current ≡ None) }
        ensures place { (self.new.folder ≡ self.old.folder) × (self.new.port ≡ self.old.port) }
    {
        let mut open = self.opened(alloc)?;
        let done = open.file.write_all(page);
        self.current = Some(open);
        match done {
            Ok(()) => Ok(()),
            Err(e) => Err(failed(e)),
        }
    }

    /// Ends the open file, or an empty one where none is open.
    pub fn finish(&mut self, alloc: Global) -> Result<Arc<StoredFile, Global>, PutFault>
        ensures path { IfOk result (λ file. string_bytes (arc_value file).path ≡ path_now self.old.current (arc_value self.old.folder).items self.old.port self.old.begun) }
        ensures begun { OnOk result (self.new.begun ≡ begun_now self.old.current self.old.begun) }
        ensures none { self.new.current ≡ None }
        ensures place { (self.new.folder ≡ self.old.folder) × (self.new.port ≡ self.old.port) }
    {
        let open = self.opened(alloc)?;
        Arc::new(alloc, StoredFile::new(open.path)).map_err(no_memory)
    }

    /// Closes and removes the open file, where there is one.
    pub fn abandon(&mut self)
        ensures none { self.new.current ≡ None }
        ensures begun { self.new.begun ≡ self.old.begun }
        ensures place { (self.new.folder ≡ self.old.folder) × (self.new.port ≡ self.old.port) }
    {
        if let Some(open) = self.current.take() {
            let _ = fs::remove_file(&self.rt, open.path.as_str());
        }
    }

    // Takes the open file out, or begins the next one.
    fn opened(&mut self, alloc: Global) -> Result<Open<R::File>, PutFault>
        ensures goes_on { IsSome self.old.current → IsOk result }
        ensures same { IfSome self.old.current (λ was. IfOk result (λ begun. begun ≡ was)) }
        ensures path { IfOk result (λ begun. string_bytes begun.path ≡ path_now self.old.current (arc_value self.old.folder).items self.old.port self.old.begun) }
        ensures begun { OnOk result (self.new.begun ≡ begun_now self.old.current self.old.begun) }
        ensures none { self.new.current ≡ None }
        ensures place { (self.new.folder ≡ self.old.folder) × (self.new.port ≡ self.old.port) }
    {
        if let Some(open) = self.current.take() {
            return Ok(open);
        }
        let path = self.next_path(alloc)?;
        let file = self.create(path.as_str())?;
        self.begun = self.begun.wrapping_add(1);
        Ok(Open { file, path })
    }

    // The path of the next file. A folder whose name is empty or no UTF-8 has none.
    fn next_path(&self, alloc: Global) -> Result<String, PutFault>
        ensures { IfOk result (λ path. string_bytes path ≡ path_of (arc_value self.now.folder).items self.now.port self.now.begun) }
    {
        let folder = match str::from_utf8(self.folder.as_slice()) {
            Ok(folder) if !folder.is_empty() => folder,
            _ => return Err(PutFault::Failed),
        };
        path_text(alloc, folder, self.port, self.begun).map_err(no_memory)
    }

    // Creates the file of that path, over what an earlier run left, and its folder where that is absent.
    fn create(&self, path: &str) -> Result<R::File, PutFault>
        ensures { IfErr result (λ fault. fault ≡ Failed) }
    {
        let folder = str::from_utf8(self.folder.as_slice()).map_err(failed)?;
        fs::create_dir_all(&self.rt, folder).map_err(failed)?;
        fs::create(&self.rt, path).map_err(failed)
    }
}

// The path of a file in a folder, by its port's number and how many files the port had begun before.
fn path_text(alloc: Global, folder: &str, port: u64, begun: u64) -> Result<String, AllocError>
    ensures { IfOk result (λ path. string_bytes path ≡ path_of folder.now port begun) }
{
    let path = format!(in alloc; "{folder}/{port}-{begun}.pages")?;
    Ok(path)
}

fn failed<E: Drop>(_: E) -> PutFault
    ensures { result ≡ Failed }
{
    PutFault::Failed
}

fn no_memory<E: Drop>(_: E) -> PutFault
    ensures { result ≡ Memory }
{
    PutFault::Memory
}
