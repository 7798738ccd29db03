// A device over files in a folder.
ghost use Rattle.std.specs.Prelude.{◌≡◌, ◌+◌, ◌%◌, ◌^◌, [], Some, IfOk, OnOk, OnErr};
ghost use Rattle.hv_dev.specs.Reading.{none_back, unread, went};

use super::file::StoredFile;
use super::port::FilePort;
use super::writer::Writer;
use crate::reads::Landed;
use crate::{Device, Order, PageSink, Past};
use std::alloc::{AllocError, Global};
use std::rt::Files;
use std::sync::Arc;

/// A device over files in a folder, which it makes where it is absent. A port's number and a count name a file, as `0-1.pages`,
/// and it writes over what an earlier run left.
///
/// Its files tell nothing: that one holds what was written, and that no one else writes to the folder, is trusted.
/// A folder that cannot be made, or whose name is empty or no UTF-8, is a fault of each write and seal.
#[derive(Drop)]
pub struct FileDevice<R> {
    rt: R,
    folder: Arc<Vec<u8>, Global>,
    /// How many ports it has made, modulo 2^64.
    made: u64,
    faults: u64,
    submits: u64,
    most: u32,
    landings: Past<Landed<StoredFile>>,
    out: u64,
}

impl<R: Files + Clone + Drop> FileDevice<R> {
    pub fn new(alloc: Global, rt: R, folder: Vec<u8>) -> Result<FileDevice<R>, AllocError>
        ensures { IfOk result (λ device. ⟦<FileDevice<R> as Device>⟧.returned device ≡ none_back) }
    {
        Ok(FileDevice {
            rt,
            folder: Arc::new(alloc, folder)?,
            made: 0,
            faults: 0,
            submits: 0,
            most: 0,
            landings: Past::new(),
            out: 0,
        })
    }
}

impl<R: Files + Clone + Drop> Device for FileDevice<R> {
    type Port = FilePort<R>;

    ghost returned = { λ it. record { faults = it.faults; submits = it.submits; most = it.most; landings = it.landings; out = it.out } };

    // Ports have numbers in order, modulo 2^64: no other port has the names of its files.
    fn port(&mut self, alloc: Global, _: Order, room: u32) -> Result<FilePort<R>, AllocError>
        ensures fresh { IfOk result (λ port. ⟦<FilePort<R> as PageSink>⟧.reading port ≡ unread _ room) }
        ensures calm { IfOk result (λ port. ⟦<FilePort<R> as PageSink>⟧.write_faults port ≡ 0) }
        ensures empty { IfOk result (λ port. ⟦<FilePort<R> as PageSink>⟧.written port ≡ Some []) }
        ensures out { OnOk result (⟦<FileDevice<R> as Device>⟧.returned self.new ≡ went (⟦<FileDevice<R> as Device>⟧.returned self.old)) }
        ensures kept { OnErr result (⟦<FileDevice<R> as Device>⟧.returned self.new ≡ ⟦<FileDevice<R> as Device>⟧.returned self.old) }
        ensures numbered { IfOk result (λ port. (port.writer.port ≡ self.old.made) × (port.writer.begun ≡ 0)) }
        ensures made { OnOk result (self.new.made ≡ (self.old.made + 1) % 2 ^ 64) }
    {
        let Some(out) = self.out.checked_add(1) else {
            return Err(AllocError);
        };
        let folder = Arc::try_clone(&self.folder)?;
        let writer = Writer::new(self.rt.clone()?, folder, self.made);
        let port = FilePort::new(alloc, writer, room)?;
        self.made = self.made.wrapping_add(1);
        self.out = out;
        Ok(port)
    }

    fn back(&mut self, port: FilePort<R>) {
        let faults = self.faults.saturating_add(port.read_faults);
        self.faults = faults.saturating_add(port.write_faults);
        self.submits = self.submits.saturating_add(port.queue.submits);
        self.most = self.most.max(port.queue.most);
        self.landings.extend(&port.landings);
        self.out = self.out.saturating_sub(1);
    }
}
