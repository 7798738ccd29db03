// Commands, what each is told, and the entries of those that were accepted.

use crate::asked::{Case, Did, Step, ask_all, is_entry};
use hv_catalogue::{ApplyFault, Catalogue};
use hv_dev::{CleanDevice, Device, Order};
use hv_model::Refusal;
use std::alloc::Global;
use std::process::Abort;

// A table, two chunks of it, and what an import into no table is told.
const ONE_TABLE: [Case; 4] = [
    Case {
        session: b'm',
        number: 1,
        step: Step::Create(b't'),
        told: Ok(1),
    },
    Case {
        session: b'm',
        number: 2,
        step: Step::Import(b't', 2),
        told: Ok(2),
    },
    Case {
        session: b'm',
        number: 3,
        step: Step::Import(b't', 1),
        told: Ok(3),
    },
    Case {
        session: b'm',
        number: 4,
        step: Step::Import(b'u', 1),
        told: Err(ApplyFault::NoTable { at: 3 }),
    },
];

// What is refused has no entry.
const ONE_TABLE_DID: [(u8, u32, Did); 3] = [
    (b'm', 1, Did::Create(b't')),
    (b'm', 2, Did::Import(b't', 1, 2)),
    (b'm', 3, Did::Import(b't', 2, 1)),
];

// A second table of the name, a purge of a chunk that was never made, and commands of a table that doesn't stand.
const REFUSED: [Case; 5] = [
    Case {
        session: b'm',
        number: 2,
        step: Step::Create(b't'),
        told: Ok(1),
    },
    Case {
        session: b'm',
        number: 3,
        step: Step::Create(b't'),
        told: Err(ApplyFault::Refused {
            at: 1,
            cause: Refusal::TableExists,
        }),
    },
    Case {
        session: b'm',
        number: 4,
        step: Step::Purge(b't', 9),
        told: Err(ApplyFault::Refused {
            at: 1,
            cause: Refusal::NoChunk { chunk: 9 },
        }),
    },
    Case {
        session: b'm',
        number: 5,
        step: Step::Import(b'u', 0),
        told: Err(ApplyFault::NoTable { at: 1 }),
    },
    Case {
        session: b'm',
        number: 6,
        step: Step::Purge(b'u', 9),
        told: Err(ApplyFault::NoTable { at: 1 }),
    },
];

const REFUSED_DID: [(u8, u32, Did); 1] = [(b'm', 2, Did::Create(b't'))];

// Session b purges the chunk before session a imports its own.
const TWO_SESSIONS: [Case; 5] = [
    Case {
        session: b'm',
        number: 1,
        step: Step::Create(b't'),
        told: Ok(1),
    },
    Case {
        session: b'm',
        number: 2,
        step: Step::Import(b't', 2),
        told: Ok(2),
    },
    Case {
        session: b'b',
        number: 1,
        step: Step::Purge(b't', 1),
        told: Ok(3),
    },
    Case {
        session: b'a',
        number: 1,
        step: Step::Import(b't', 1),
        told: Ok(4),
    },
    Case {
        session: b'b',
        number: 2,
        step: Step::Purge(b't', 1),
        told: Err(ApplyFault::Refused {
            at: 4,
            cause: Refusal::NoChunk { chunk: 1 },
        }),
    },
];

const TWO_SESSIONS_DID: [(u8, u32, Did); 4] = [
    (b'm', 1, Did::Create(b't')),
    (b'm', 2, Did::Import(b't', 1, 2)),
    (b'b', 1, Did::Purge(b't', 1)),
    (b'a', 1, Did::Import(b't', 2, 1)),
];

// A chunk of one table is none of the other's; numbers past 2^32 are those of no chunk.
const TWO_TABLES: [Case; 8] = [
    Case {
        session: b'm',
        number: 1,
        step: Step::Create(b't'),
        told: Ok(1),
    },
    Case {
        session: b'm',
        number: 2,
        step: Step::Create(b'u'),
        told: Ok(2),
    },
    Case {
        session: b'm',
        number: 3,
        step: Step::Import(b't', 1),
        told: Ok(3),
    },
    Case {
        session: b'm',
        number: 4,
        step: Step::Import(b'u', 2),
        told: Ok(4),
    },
    Case {
        session: b'm',
        number: 5,
        step: Step::Purge(b'u', 1),
        told: Err(ApplyFault::Refused {
            at: 4,
            cause: Refusal::NoChunk { chunk: 1 },
        }),
    },
    Case {
        session: b'm',
        number: 6,
        step: Step::Purge(b'u', 4_294_967_298),
        told: Err(ApplyFault::Refused {
            at: 4,
            cause: Refusal::NoChunk {
                chunk: 4_294_967_298,
            },
        }),
    },
    Case {
        session: b'm',
        number: 7,
        step: Step::Purge(b'u', 2),
        told: Ok(5),
    },
    Case {
        session: b'm',
        number: 8,
        step: Step::Import(b't', 3),
        told: Ok(6),
    },
];

const TWO_TABLES_DID: [(u8, u32, Did); 6] = [
    (b'm', 1, Did::Create(b't')),
    (b'm', 2, Did::Create(b'u')),
    (b'm', 3, Did::Import(b't', 1, 1)),
    (b'm', 4, Did::Import(b'u', 2, 2)),
    (b'm', 7, Did::Purge(b'u', 2)),
    (b'm', 8, Did::Import(b't', 3, 3)),
];

// Asks the cases of an empty catalogue, and compares its history and how many chunks it made.
fn runs(rt: &impl Abort, alloc: Global, cases: &[Case], dids: &[(u8, u32, Did)], made: u32) {
    let mut device = CleanDevice::new();
    let mut port = device.port(alloc, Order::Fifo, 1).expect(rt, "a port");
    let mut catalogue = Catalogue::new(alloc, 8).expect(rt, "a catalogue");
    ask_all(rt, alloc, &mut port, &mut catalogue, cases);
    assert!(rt; catalogue.made() == made);
    assert!(rt; catalogue.length() as usize == dids.len());
    let entries = catalogue.history();
    assert!(rt; entries.len() == dids.len());
    for (entry, did) in entries.as_slice().iter().zip(dids) {
        assert!(rt; is_entry(entry, did.0, did.1, did.2), "{did:?}");
    }
}

#[test]
fn numbers_chunks_of_a_table(rt: HostRuntime) {
    runs(&rt, rt.alloc(), &ONE_TABLE, &ONE_TABLE_DID, 2);
}

#[test]
fn refuses_in_order(rt: HostRuntime) {
    runs(&rt, rt.alloc(), &REFUSED, &REFUSED_DID, 0);
}

#[test]
fn names_each_session(rt: HostRuntime) {
    runs(&rt, rt.alloc(), &TWO_SESSIONS, &TWO_SESSIONS_DID, 2);
}

#[test]
fn numbers_chunks_over_all_tables(rt: HostRuntime) {
    runs(&rt, rt.alloc(), &TWO_TABLES, &TWO_TABLES_DID, 3);
}
