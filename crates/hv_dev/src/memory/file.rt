// A sealed file in memory, and the reads of it.
ghost use Rattle.std.specs.Prelude.{◌≡◌, length};
ghost use Rattle.hv_dev.specs.Reading.{IsPageOf};
ghost use Rattle.hv_dev.specs.Reads.{Ends};

use super::plan::Plan;
use crate::reads::{Held, Landed};
use crate::{PageFile, Past, Reaped};
use std::marker::PhantomData;

/// A sealed file in memory, of a device with such a plan.
#[derive(Drop)]
pub struct MemFile<P> {
    pages: Vec<[u8; 4096]>,
    plan: PhantomData<P>,
}

impl<P> MemFile<P> {
    pub fn new(pages: Vec<[u8; 4096]>) -> MemFile<P>
        ensures { result.pages ≡ pages }
    {
        MemFile {
            pages,
            plan: PhantomData,
        }
    }

    /// Puts the page of that number in place of the bytes, or zeros where there is none.
    pub fn bring(&self, number: u32, bytes: &mut [u8])
        requires { length bytes.old ≡ 4096 }
        ensures { IsPageOf self.now.pages.items number bytes.new }
    {
        match self.pages.get(number as usize) {
            Some(page) => bytes.copy_from_slice(page),
            None => bytes.fill(0),
        }
    }
}

impl<P: Plan> PageFile for MemFile<P> {
    ghost tells = { P.is_true };

    ghost pages = { λ it. it.pages.items };
}

impl<P: Plan> Held<MemFile<P>> {
    /// Ends the read: it brings its page and is noted, or the plan has it fail.
    pub fn land(self, plan: &mut P, landings: &mut Past<Landed<MemFile<P>>>) -> Reaped
        ensures ends { Ends ⟦<MemFile<P> as PageFile>⟧.tells ⟦<MemFile<P> as PageFile>⟧.pages self landings.old landings.new (P.read_faults plan.old) (P.read_faults plan.new) result }
        ensures kept { P.write_faults plan.new ≡ P.write_faults plan.old }
    {
        let (tag, file, page, mut frame) = self.take_apart();
        let landed = !plan.fails_read();
        if landed {
            file.bring(page, frame.bytes_mut());
            plan.spoil(frame.bytes_mut());
            landings.note(&Landed::new(tag, &*file, page, &frame));
        }
        Reaped { tag, frame, landed }
    }
}
