// Worlds whose sessions are picked at random.
use crate::asked::{Asked, script_of};
use hv_dev::{Device, Order};
use hv_report::Report;
use hv_script::read_statements;
use hv_world::World;
use rand_core::utils::NextWord;
use rand_pcg::Pcg32;
use std::alloc::{AllocError, Global};
use std::test::Fail;

/// The report on statements over a device, by random picks.
pub fn walked<D: Device>(
    alloc: Global,
    asked: &[Asked],
    device: &mut D,
    random: &mut Pcg32,
) -> Result<Report, Fail> {
    let text = script_of(alloc, asked)?;
    let Ok(script) = read_statements(alloc, text.as_bytes()) else {
        return Err(Fail::from("no script"));
    };
    let mut world = World::new(
        alloc,
        script,
        Order::Seed(u64::from(random.next_word())),
        device,
    )?;
    while !world.done() {
        world.pick(alloc, random.next_word());
    }
    Ok(world.report(device))
}
