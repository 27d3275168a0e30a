// The calls on objects, locals and statics.
ghost use Rattle.std.specs.Prelude.{◌≡◌, ℕ, ◌+◌, ◌<◌, ◌≤◌, ◌^◌, Bool, true, false, None};
ghost use Rattle.hd_model.specs.declared.command.Cmd.TheVariants as cmd;
ghost use Rattle.hd_model.specs.declared.data.Reply.TheVariants as reply;
ghost use Rattle.hd_model.specs.{Command.load_reply, State.last_serial};
ghost use Rattle.hd_host.specs.{Calls.HasReplied, Calls.FailsBy, Calls.Tries};

use crate::fault::Fault;
use crate::handles::is_last;
use crate::host::Host;
use crate::last::settle;
use hd_model::limits::{FIELDS, HEADER, REGISTERS};
use hd_model::{Id, Memory};

impl Host {
    /// Makes an object with null fields and value 0, of generation 0, with `fin` registered for
    /// finalization; local `dst` references it. A full heap is reported first, then that the
    /// context has made 2^32 - 1 objects.
    #[inline(always)]
    pub fn object_new(&mut self, context: u32, dst: u8, fields: u8, fin: bool) -> Result<Id, Fault>
        requires context { context < self.old.machine.numbers.callers }
        requires local { dst < REGISTERS }
        requires fields { fields ≤ FIELDS }
        ensures does { Tries self.old context (cmd.New dst fields fin) reply.Object self.new
            result }
        ensures contexts { self.new.machine.numbers.callers ≡ self.old.machine.numbers.callers }
    {
        if self.has_made_all(context) {
            return Err(self.no_serial_left(context, fields));
        }
        match self.store.new_object(context, dst, fields, fin) {
            Ok(came) => settle(&mut self.last, came),
            Err(Memory) => Err(Fault::Memory),
        }
    }

    // Whether a context has made 2^32 - 1 objects.
    #[inline(always)]
    pub(crate) fn has_made_all(&self, context: u32) -> bool
        requires { context < self.now.machine.numbers.callers }
        ensures all { result ≡ true → last_serial self.now.machine.state context + 1 ≡ 2 ^ 32 }
        ensures more { result ≡ false →
            last_serial self.now.machine.state context + 1 < 2 ^ 32 }
    {
        is_last(self.store.contents().last_serial(context))
    }

    // Why a context that has made 2^32 - 1 objects makes no other: the heap is full, or else that.
    #[cold]
    #[inline(never)]
    pub(crate) fn no_serial_left(&self, context: u32, fields: u8) -> Fault
        requires context { context < self.now.machine.numbers.callers }
        requires fields { fields ≤ FIELDS }
        requires at_end { last_serial self.now.machine.state context + 1 ≡ 2 ^ 32 }
        ensures { (d : ℕ) (fin : Bool) → FailsBy self.now context None (cmd.New d fields fin)
            result }
    {
        let store = self.store.contents();
        let used = store.cells();
        let size = u32::from(fields) + HEADER;
        if u64::from(used) + u64::from(size) > u64::from(store.limit()) {
            Fault::HeapFull { used, size }
        } else {
            Fault::Exhausted
        }
    }

    /// Local `dst` gets what field `i` of the object references, which is returned.
    #[inline(always)]
    pub fn field_get(
        &mut self,
        context: u32,
        dst: u8,
        object: u8,
        i: u8,
    ) -> Result<Option<Id>, Fault>
        requires context { context < self.old.machine.numbers.callers }
        requires locals { (dst < REGISTERS) × (object < REGISTERS) }
        ensures does { Tries self.old context (cmd.Get dst object i) load_reply self.new result }
        ensures contexts { self.new.machine.numbers.callers ≡ self.old.machine.numbers.callers }
    {
        let came = self.store.get_field(context, dst, object, i);
        settle(&mut self.last, came)
    }

    /// Field `i` of the object gets what local `src` references. A null `src` stores null.
    #[inline(always)]
    pub fn field_set(&mut self, context: u32, object: u8, i: u8, src: u8) -> Result<(), Fault>
        requires context { context < self.old.machine.numbers.callers }
        requires locals { (object < REGISTERS) × (src < REGISTERS) }
        ensures does { Tries self.old context (cmd.Set object i src) (λ _. reply.Done) self.new
            result }
        ensures contexts { self.new.machine.numbers.callers ≡ self.old.machine.numbers.callers }
    {
        let came = self.store.set_field(context, object, i, src);
        settle(&mut self.last, came)
    }

    /// The value of the object.
    #[inline(always)]
    pub fn value_get(&mut self, context: u32, object: u8) -> Result<u64, Fault>
        requires context { context < self.old.machine.numbers.callers }
        requires local { object < REGISTERS }
        ensures does { Tries self.old context (cmd.Read object) reply.Value self.new result }
        ensures contexts { self.new.machine.numbers.callers ≡ self.old.machine.numbers.callers }
    {
        let came = self.store.read_value(context, object);
        settle(&mut self.last, came)
    }

    /// The value of the object becomes `value`.
    #[inline(always)]
    pub fn value_set(&mut self, context: u32, object: u8, value: u64) -> Result<(), Fault>
        requires context { context < self.old.machine.numbers.callers }
        requires local { object < REGISTERS }
        ensures does { Tries self.old context (cmd.Val object value) (λ _. reply.Done) self.new
            result }
        ensures contexts { self.new.machine.numbers.callers ≡ self.old.machine.numbers.callers }
    {
        let came = self.store.set_value(context, object, value);
        settle(&mut self.last, came)
    }

    /// The generation of the object (GC.GetGeneration).
    #[inline(always)]
    pub fn generation(&mut self, context: u32, object: u8) -> Result<u8, Fault>
        requires context { context < self.old.machine.numbers.callers }
        requires local { object < REGISTERS }
        ensures does { Tries self.old context (cmd.Gen object) reply.Generation self.new result }
        ensures contexts { self.new.machine.numbers.callers ≡ self.old.machine.numbers.callers }
    {
        let came = self.store.read_generation(context, object);
        settle(&mut self.last, came)
    }

    /// The object is no longer registered for finalization (GC.SuppressFinalize).
    pub fn suppress(&mut self, context: u32, object: u8) -> Result<(), Fault>
        requires context { context < self.old.machine.numbers.callers }
        requires local { object < REGISTERS }
        ensures does { Tries self.old context (cmd.Suppress object) (λ _. reply.Done) self.new
            result }
        ensures contexts { self.new.machine.numbers.callers ≡ self.old.machine.numbers.callers }
    {
        let came = self.store.suppress(context, object);
        settle(&mut self.last, came)
    }

    /// The object is registered for finalization (GC.ReRegisterForFinalize).
    pub fn reregister(&mut self, context: u32, object: u8) -> Result<(), Fault>
        requires context { context < self.old.machine.numbers.callers }
        requires local { object < REGISTERS }
        ensures does { Tries self.old context (cmd.Reregister object) (λ _. reply.Done) self.new
            result }
        ensures contexts { self.new.machine.numbers.callers ≡ self.old.machine.numbers.callers }
    {
        let came = self.store.reregister(context, object);
        settle(&mut self.last, came)
    }

    /// Local `dst` gets what local `src` references.
    #[inline(always)]
    pub fn local_copy(&mut self, context: u32, dst: u8, src: u8)
        requires context { context < self.old.machine.numbers.callers }
        requires locals { (dst < REGISTERS) × (src < REGISTERS) }
        ensures does { HasReplied self.old context None (cmd.Copy dst src) reply.Done self.new }
        ensures contexts { self.new.machine.numbers.callers ≡ self.old.machine.numbers.callers }
    {
        self.store.copy_register(context, dst, src);
        self.last.clear();
    }

    /// Local `dst` becomes null.
    #[inline(always)]
    pub fn local_clear(&mut self, context: u32, dst: u8)
        requires context { context < self.old.machine.numbers.callers }
        requires local { dst < REGISTERS }
        ensures does { HasReplied self.old context None (cmd.Clear dst) reply.Done self.new }
        ensures contexts { self.new.machine.numbers.callers ≡ self.old.machine.numbers.callers }
    {
        self.store.clear_register(context, dst);
        self.last.clear();
    }

    /// Static `k` gets what local `src` references. All contexts have the 16 statics.
    #[inline(always)]
    pub fn static_set(&mut self, context: u32, k: u8, src: u8)
        requires context { context < self.old.machine.numbers.callers }
        requires statics { (k < REGISTERS) × (src < REGISTERS) }
        ensures does { HasReplied self.old context None (cmd.SPut k src) reply.Done self.new }
        ensures contexts { self.new.machine.numbers.callers ≡ self.old.machine.numbers.callers }
    {
        self.store.put_static(context, k, src);
        self.last.clear();
    }

    /// Local `dst` gets what static `k` references, which is returned.
    #[inline(always)]
    pub fn static_get(&mut self, context: u32, dst: u8, k: u8) -> Option<Id>
        requires context { context < self.old.machine.numbers.callers }
        requires statics { (dst < REGISTERS) × (k < REGISTERS) }
        ensures does { HasReplied self.old context None (cmd.SGet dst k) (load_reply result)
            self.new }
        ensures contexts { self.new.machine.numbers.callers ≡ self.old.machine.numbers.callers }
    {
        let target = self.store.get_static(context, dst, k);
        self.last.clear();
        target
    }
}
