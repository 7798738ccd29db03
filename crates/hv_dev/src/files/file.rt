// A sealed file of the operating system, and the reads of it.
ghost use Rattle.std.specs.Prelude.{◌≡◌, [], true, false, OnOk};
ghost use Rattle.hv_dev.specs.Files.{ReadPage, FetchedPage};
ghost use Rattle.hv_dev.specs.Reads.{Ends};

use crate::reads::{Held, Landed};
use crate::{PageFile, Past, Reaped};
use std::io::{Read, Seek, SeekFrom};
use std::rt::Files;
use std::{fs, io};

/// A sealed file of the operating system, by its path.
#[derive(Drop)]
pub struct StoredFile {
    path: String,
}

impl PageFile for StoredFile {
    ghost tells = { false };

    ghost pages = { λ _. [] };
}

impl StoredFile {
    pub fn new(path: String) -> StoredFile
        ensures { result ≡ record { path = path } }
    {
        StoredFile { path }
    }

    // Opens the file and reads the page of that number.
    fn read<R: Files>(&self, rt: &R, number: u32, bytes: &mut [u8]) -> io::Result<()>
        ensures { OnOk result (FetchedPage R.File.stream_position R.File.remaining number bytes.new) }
    {
        let mut file = fs::open(rt, self.path.as_str())?;
        read_page(&mut file, number, bytes)
    }
}

// Fills the bytes with those of the page of that number.
fn read_page<F: Read + Seek>(file: &mut F, number: u32, bytes: &mut [u8]) -> io::Result<()>
    ensures { OnOk result (ReadPage F.stream_position F.remaining file.old file.new number bytes.new) }
{
    file.seek(SeekFrom::Start(4096 * u64::from(number)))?;
    file.read_exact(bytes)
}

impl Held<StoredFile> {
    /// Ends the read: it brings its page and is noted, or it counts as a fault.
    pub fn fetch<R: Files>(
        self,
        rt: &R,
        faults: &mut u64,
        landings: &mut Past<Landed<StoredFile>>,
    ) -> Reaped
        ensures ends { Ends ⟦<StoredFile as PageFile>⟧.tells ⟦<StoredFile as PageFile>⟧.pages self landings.old landings.new faults.old faults.new result }
        ensures read { result.landed ≡ true → FetchedPage R.File.stream_position R.File.remaining self.page result.frame.bytes }
    {
        let (tag, file, page, mut frame) = self.take_apart();
        let landed = file.read(rt, page, frame.bytes_mut()).is_ok();
        if landed {
            landings.note(&Landed::new(tag, &*file, page, &frame));
        } else {
            *faults = faults.saturating_add(1);
        }
        Reaped { tag, frame, landed }
    }
}
