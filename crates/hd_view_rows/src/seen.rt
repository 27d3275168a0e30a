// A store that has one object, which a static references, a handle and an idle entry: what is shown
// of it, and its path.
use hd_model::{Addr, Id, Kind, Memory, Slot};
use hd_path::push_paths;
use hd_seen::{
    INDEXES, SeenBlock, SeenEntry, SeenExtra, SeenHandle, SeenObject, SeenRegion, Snapshot,
};
use hd_show::show_text;
use std::alloc::Global;
use std::process::Abort;
use std::test::Fail;

const SHOWN: &str = "SLOT   KIND    TARGET                EXTRA                 AGE
128    dep     0.1                   0.1                   0

KIND    HANDLES  BLOCKS  FREE
short   0        0       0
long    0        0       0
strong  0        0       0
pinned  0        0       0
var     0        0       0
ref     0        0       0
dep     1        1       62
all     1        1       62

KIND    BLOCK  HANDLES  ENTRIES  FREE  ROWS
dep     2      1        1        62    1-61,63

GENERATION  OBJECTS  CELLS    REGIONS  PINNED  CARDS
0           0        0        0        0       0
1           0        0        0        0       0
2           1        3        1        0       2
all         1        3        1        0       2

REGION    GENERATION  OBJECTS  CELLS  POINTER  PINNED  CARDS
1         2           1        3      3        0       2

QUEUED  OBJECT

ENTRY  KEY                    VALUE                  AGE
190    idle                   -                      2

CALLER  REGISTER  HAS

STATIC  OBJECT
3       0.1

BOARD   SLOT
";

const PATHS: &str = "path 0.1 edges 0\n  static 3 -> 0.1\npath 0.2 gone\npath 0.3 unknown\n";

fn object(alloc: Global) -> SeenObject {
    SeenObject {
        id: Id(1),
        at: Addr(256),
        generation: 2,
        value: 0,
        registered: false,
        fields: Vec::new(alloc),
    }
}

fn region() -> SeenRegion {
    SeenRegion {
        number: 1,
        generation: 2,
        pointer: 3,
        cards: 2,
    }
}

fn handle() -> SeenHandle {
    SeenHandle {
        slot: Slot(128),
        kind: Kind::Dependent,
        target: Some(Id(1)),
        extra: SeenExtra::Secondary(Some(Id(1))),
        age: 0,
    }
}

fn entry() -> SeenEntry {
    SeenEntry {
        slot: Slot(190),
        key: None,
        value: None,
        age: 2,
    }
}

fn block() -> SeenBlock {
    SeenBlock {
        number: 2,
        kind: Some(Kind::Dependent),
    }
}

// A store that has nothing, whose static 3 references what is to be put there.
fn empty(alloc: Global, serials: Vec<u32>) -> Snapshot {
    let mut statics = [None; INDEXES];
    statics[3] = Some(Id(1));
    Snapshot {
        callers: 1,
        objects: Vec::new(alloc),
        regions: Vec::new(alloc),
        handles: Vec::new(alloc),
        entries: Vec::new(alloc),
        blocks: Vec::new(alloc),
        queue: Vec::new(alloc),
        registers: Vec::new(alloc),
        handle_registers: Vec::new(alloc),
        statics,
        board: [None; INDEXES],
        serials,
    }
}

// Puts one of each into a store.
fn fill(alloc: Global, seen: &mut Snapshot) -> Result<(), Fail> {
    seen.objects.push(object(alloc))?;
    seen.regions.push(region())?;
    seen.handles.push(handle())?;
    seen.entries.push(entry())?;
    seen.blocks.push(block())?;
    Ok(())
}

fn snapshot(alloc: Global) -> Result<Snapshot, Fail> {
    let mut seen = empty(alloc, Vec::from_array(alloc, [2])?);
    fill(alloc, &mut seen)?;
    Ok(seen)
}

// These two have no clause, so that no test carries one.

fn shown(alloc: Global, seen: &Snapshot) -> Result<Vec<u8>, Memory> {
    show_text(alloc, seen)
}

fn paths(alloc: Global, seen: &Snapshot) -> Result<Vec<u8>, Memory> {
    let mut text = Vec::new(alloc);
    push_paths(alloc, &mut text, seen, &[Id(1), Id(2), Id(3)])?;
    Ok(text)
}

// A text is written, and is this one.
fn is_text(rt: &impl Abort, written: Result<Vec<u8>, Memory>, want: &str) {
    match written {
        Ok(text) => assert!(rt; text.as_slice() == want.as_bytes()),
        Err(Memory) => panic!(rt; "out of memory"),
    }
}

#[test]
fn a_store_is_shown(rt: HostRuntime) -> Result<(), Fail> {
    let seen = snapshot(rt.alloc())?;
    is_text(&rt, shown(rt.alloc(), &seen), SHOWN);
    Ok(())
}

#[test]
fn a_path_is_written_for_each_object(rt: HostRuntime) -> Result<(), Fail> {
    let seen = snapshot(rt.alloc())?;
    is_text(&rt, paths(rt.alloc(), &seen), PATHS);
    Ok(())
}
