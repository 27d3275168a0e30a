// The state of the plain machine, and what its commands read and write there.
ghost use Rattle.std.specs.Prelude.{◌≡◌, ◌+◌, ◌<◌, ◌≤◌, ◌^◌, None, IsSome, IfOk, IsTrue, ◌↔◌, option_copied};
ghost use Rattle.hd_model.specs.{PinnedAddresses.IsFreeAddress, UserLaws.HasPinnedApart, WellFormed.IsWellFormed};
ghost use Rattle.std.specs.FinMap.{get};
ghost use Rattle.hd_model.specs.declared.limits.TheConstants.{BLOCKS};
ghost use Rattle.hd_model.specs.State.{Numbers, start_of, last_serial, size_of, total_size, with_object, with_address, with_serial};
ghost use Rattle.hd_plain.specs.MachineViews.{Becomes};
ghost use Rattle.hd_plain.specs.Inside.{AreEmpty, Edits};

use hd_maps::{Edit, Object, Objects, PinnedAddresses, Table, Weak};
use hd_model::limits::REGISTERS;
use hd_model::{Id, Memory, Slot, filled};
use std::alloc::Global;
use std::collections::VecDeque;
use std::marker::Model;

// The registers of a caller, the statics or the board.
const INDEXES: usize = REGISTERS as usize;

/// The state: objects by identity, handles by slot, and what references them.
pub struct Machine {
    pub(crate) alloc: Global,
    heap: u32,
    callers: u32,
    pub objects: Objects,
    pub table: Table,
    pub weak: Weak,
    pub(crate) registers: Vec<[Option<Id>; INDEXES]>,
    pub(crate) handle_registers: Vec<[Option<Slot>; INDEXES]>,
    serials: Vec<u32>,
    pub(crate) statics: [Option<Id>; INDEXES],
    pub(crate) board: [Option<Slot>; INDEXES],
    pub(crate) queue: VecDeque<Id>,
    pub pinned: PinnedAddresses,
}

impl Model for Machine {
    ghost use Rattle.hd_plain.specs.MachineViews.{MachineView, machine_view_code};

    ghost Value = { MachineView };

    ghost coded = { machine_view_code };

    ghost use Rattle.hd_plain.specs.Parts.{IsMachine, judge_of};

    ghost view = { judge_of };

    ghost invariant = { IsMachine };
}

// Not derived: what a derived one does is proved again wherever a machine is dropped.
impl Drop for Machine {
    fn drop(self) {
        let Machine {
            alloc: _,
            heap: _,
            callers: _,
            objects: _objects,
            table: _table,
            weak: _weak,
            registers: _registers,
            handle_registers: _handle_registers,
            serials: _serials,
            statics: _,
            board: _,
            queue: _queue,
            pinned: _pinned,
        } = self;
    }
}

// What each caller has: its registers, and its last serial.
#[derive(Drop)]
struct Seats {
    callers: u32,
    registers: Vec<[Option<Id>; INDEXES]>,
    handle_registers: Vec<[Option<Slot>; INDEXES]>,
    serials: Vec<u32>,
}

impl Seats {
    // Nothing is referenced, and nothing is made.
    fn open(alloc: Global, callers: u32) -> Result<Seats, Memory>
        ensures { IfOk result (AreEmpty callers) }
    {
        Ok(Seats {
            callers,
            registers: filled(alloc, [None; INDEXES], callers)?,
            handle_registers: filled(alloc, [None; INDEXES], callers)?,
            serials: filled(alloc, 0, callers)?,
        })
    }

    // A machine of these callers in which nothing is made.
    fn machine(self, alloc: Global, heap: u32, blocks: u32) -> Machine
        requires blocks { blocks ≤ BLOCKS }
        requires empty { AreEmpty self.callers self }
        ensures numbers { result.numbers
            ≡ record { heap = heap; blocks = blocks; callers = self.callers } }
        ensures state { result.state ≡ start_of result.numbers }
    {
        Machine {
            alloc,
            heap,
            callers: self.callers,
            objects: Objects::open(alloc),
            table: Table::open(alloc, blocks),
            weak: Weak::open(alloc),
            registers: self.registers,
            handle_registers: self.handle_registers,
            serials: self.serials,
            statics: [None; INDEXES],
            board: [None; INDEXES],
            queue: VecDeque::new(alloc),
            pinned: PinnedAddresses::open(alloc),
        }
    }
}

impl Machine {
    /// Nothing is made yet.
    pub fn open(alloc: Global, callers: u32, heap: u32, blocks: u32) -> Result<Machine, Memory>
        requires { blocks ≤ BLOCKS }
        ensures numbers { let n : Numbers =
            record { heap = heap; blocks = blocks; callers = callers } in
            IfOk result (λ m. m.numbers ≡ n) }
        ensures state { IfOk result (λ m. m.state ≡ start_of m.numbers) }
    {
        let seats = Seats::open(alloc, callers)?;
        Ok(seats.machine(alloc, heap, blocks))
    }

    /// The limit of the heap in cells.
    pub fn heap(&self) -> u32
        ensures { result ≡ self.now.numbers.heap }
    {
        self.heap
    }

    /// The number of callers.
    pub fn callers(&self) -> u32
        ensures { result ≡ self.now.numbers.callers }
    {
        self.callers
    }

    /// The last serial of a caller.
    pub fn serial(&self, caller: u32) -> u32
        requires { caller < self.now.numbers.callers }
        ensures { result ≡ last_serial self.now.state caller }
    {
        self.serials[caller as usize]
    }

    /// The last serial of a caller becomes another.
    pub(crate) fn set_serial(&mut self, caller: u32, serial: u32)
        requires { caller < self.old.numbers.callers }
        ensures { Becomes self.old (with_serial self.old.state caller serial) self.new }
    {
        self.serials[caller as usize] = serial;
    }

    /// The cells that all objects take together.
    pub fn used(&self) -> u32
        ensures { result ≡ total_size self.now.state }
    {
        self.objects.used()
    }

    /// An object.
    pub fn object(&self, id: u64) -> Option<&Object>
        ensures { option_copied result ≡ get self.now.state.objects id }
    {
        self.objects.get(id)
    }

    /// A new object. Without memory nothing is changed.
    pub(crate) fn add_object(&mut self, id: Id, object: Object) -> Result<(), Memory>
        requires fresh { get self.old.state.objects id.0 ≡ None }
        requires room { total_size self.old.state + size_of object < 2 ^ 32 }
        ensures { let after = with_object self.old.state id object in
            IfOk result (λ _. self.new ≡ record self.old { state = after }) }
    {
        self.objects.add(id.0, object)
    }

    /// Makes a change of an object.
    pub(crate) fn edit(&mut self, id: Id, edit: Edit)
        requires { IsSome (get self.old.state.objects id.0) }
        ensures { Edits self.old id edit self.new }
    {
        self.objects.edit(id.0, edit);
    }

    /// Whether an address is free for an object.
    pub fn is_free_address(&self, id: Id, address: u32) -> bool
        requires formed { IsWellFormed self.now.numbers self.now.state }
        requires pinned { HasPinnedApart self.now.state }
        ensures { IsTrue result ↔ IsFreeAddress self.now.state id address }
    {
        let size = self.objects.size_of(id.0);
        self.pinned.is_free(&self.objects, address, size)
    }

    /// An address, which is free, becomes the pinned one of an object, which has none. Without
    /// memory nothing is changed.
    pub(crate) fn put_address(&mut self, id: Id, address: u32) -> Result<(), Memory>
        requires none { get self.old.state.pinned id.0 ≡ None }
        requires free { IsFreeAddress self.old.state id address }
        ensures { let after = with_address self.old.state id address in
            IfOk result (λ _. self.new ≡ record self.old { state = after }) }
    {
        self.pinned.put(id, address)
    }
}
