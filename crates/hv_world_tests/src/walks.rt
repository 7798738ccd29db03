// Worlds of three sessions, each picked by another list of random picks.
use crate::asked::Asked;
use crate::checked::{is_allowed, reply_to};
use crate::drawn::drawn;
use crate::walked::walked;
use hv_dev::CleanDevice;
use hv_model::Reply;
use hv_report::Report;
use rand_core::SeedableRng;
use rand_pcg::Pcg32;
use std::alloc::Global;
use std::test::Fail;

// How many replies of each kind there are, and how many rows.
#[derive(Clone, Copy, Debug, Default)]
struct Met {
    done: u32,
    rows: u32,
    refused: u32,
    failed: u32,
}

impl Met {
    fn add(&mut self, reply: &Reply) {
        let count = match reply {
            Reply::Done { .. } => &mut self.done,
            Reply::Rows { .. } => &mut self.rows,
            Reply::Refused { .. } => &mut self.refused,
            Reply::Failed { .. } => &mut self.failed,
        };
        *count = count.saturating_add(1);
    }

    fn add_all(&mut self, asked: &[Asked], report: &Report) {
        for statement in asked {
            if let Some(reply) = reply_to(report, statement) {
                self.add(reply);
            }
        }
    }

    // Whether no statement failed, and each other kind of reply was there often.
    fn is_all(&self) -> bool {
        self.done > 2_000 && self.rows > 1_000 && self.refused > 2_000 && self.failed == 0
    }
}

// One script by one list of picks.
fn is_walked(alloc: Global, seed: u64, met: &mut Met) -> Result<bool, Fail> {
    let mut random = Pcg32::seed_from_u64(seed);
    let asked = drawn(alloc, &mut random)?;
    let mut device = CleanDevice::new();
    let report = walked(alloc, asked.as_slice(), &mut device, &mut random)?;
    met.add_all(asked.as_slice(), &report);
    Ok(is_allowed(alloc, asked.as_slice(), &report)?)
}

#[test]
fn random_picks_are_answered_as_the_definitions_have_it(rt: HostRuntime) -> Result<(), Fail> {
    let mut met = Met::default();
    for seed in 0..2_000_u64 {
        assert!(rt; is_walked(rt.alloc(), seed, &mut met)?, "{seed}");
    }
    assert!(rt; met.is_all(), "{met:?}");
    Ok(())
}
