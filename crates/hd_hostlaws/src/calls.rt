// Each call of a host, with what the relation of the laws says of it: so the laws are of these
// calls, and a call that promised less would be none of them. Those that only look at numbers, lists
// and locals change nothing by their types.
ghost use Rattle.std.specs.Prelude.{◌≡◌, ℕ, ◌+◌, ◌<◌, ◌≤◌, false, length, slice_index};
ghost use Rattle.hd_model.specs.{Kinds.is_paired, Valid.IsValidMake};
ghost use Rattle.hd_hostlaws.specs.Calls as call;
ghost use Rattle.hd_hostlaws.specs.Calls.{DoesOn, DoesPlainly};

use hd_host::{Fault, Handle, HandleInfo, Host, Last, Loaded, Lookup, Root};
use hd_model::limits::{FIELDS, OLDEST, REGISTERS};
use hd_model::{Id, Kind, Make, Report, Strength};

/// `Host::object_new`.
pub fn object_new(
    host: &mut Host,
    context: u32,
    dst: u8,
    fields: u8,
    fin: bool,
) -> Result<Id, Fault>
    requires context { context < host.old.machine.numbers.callers }
    requires local { dst < REGISTERS }
    requires fields { fields ≤ FIELDS }
    ensures { DoesPlainly (call.object_new context dst fields fin result) host.old host.new }
{
    host.object_new(context, dst, fields, fin)
}

/// `Host::field_get`.
pub fn field_get(
    host: &mut Host,
    context: u32,
    dst: u8,
    object: u8,
    i: u8,
) -> Result<Option<Id>, Fault>
    requires context { context < host.old.machine.numbers.callers }
    requires locals { (dst < REGISTERS) × (object < REGISTERS) }
    ensures { DoesPlainly (call.field_get context dst object i result) host.old host.new }
{
    host.field_get(context, dst, object, i)
}

/// `Host::field_set`.
pub fn field_set(host: &mut Host, context: u32, object: u8, i: u8, src: u8) -> Result<(), Fault>
    requires context { context < host.old.machine.numbers.callers }
    requires locals { (object < REGISTERS) × (src < REGISTERS) }
    ensures { DoesPlainly (call.field_set context object i src result) host.old host.new }
{
    host.field_set(context, object, i, src)
}

/// `Host::value_get`.
pub fn value_get(host: &mut Host, context: u32, object: u8) -> Result<u64, Fault>
    requires context { context < host.old.machine.numbers.callers }
    requires local { object < REGISTERS }
    ensures { DoesPlainly (call.value_get context object result) host.old host.new }
{
    host.value_get(context, object)
}

/// `Host::value_set`.
pub fn value_set(host: &mut Host, context: u32, object: u8, value: u64) -> Result<(), Fault>
    requires context { context < host.old.machine.numbers.callers }
    requires local { object < REGISTERS }
    ensures { DoesPlainly (call.value_set context object value result) host.old host.new }
{
    host.value_set(context, object, value)
}

/// `Host::generation`.
pub fn generation(host: &mut Host, context: u32, object: u8) -> Result<u8, Fault>
    requires context { context < host.old.machine.numbers.callers }
    requires local { object < REGISTERS }
    ensures { DoesPlainly (call.generation context object result) host.old host.new }
{
    host.generation(context, object)
}

/// `Host::suppress`.
pub fn suppress(host: &mut Host, context: u32, object: u8) -> Result<(), Fault>
    requires context { context < host.old.machine.numbers.callers }
    requires local { object < REGISTERS }
    ensures { DoesPlainly (call.suppress context object result) host.old host.new }
{
    host.suppress(context, object)
}

/// `Host::reregister`.
pub fn reregister(host: &mut Host, context: u32, object: u8) -> Result<(), Fault>
    requires context { context < host.old.machine.numbers.callers }
    requires local { object < REGISTERS }
    ensures { DoesPlainly (call.reregister context object result) host.old host.new }
{
    host.reregister(context, object)
}

/// `Host::local_copy`.
pub fn local_copy(host: &mut Host, context: u32, dst: u8, src: u8)
    requires context { context < host.old.machine.numbers.callers }
    requires locals { (dst < REGISTERS) × (src < REGISTERS) }
    ensures { DoesPlainly (call.local_copy context dst src) host.old host.new }
{
    host.local_copy(context, dst, src);
}

/// `Host::local_clear`.
pub fn local_clear(host: &mut Host, context: u32, dst: u8)
    requires context { context < host.old.machine.numbers.callers }
    requires local { dst < REGISTERS }
    ensures { DoesPlainly (call.local_clear context dst) host.old host.new }
{
    host.local_clear(context, dst);
}

/// `Host::static_set`.
pub fn static_set(host: &mut Host, context: u32, k: u8, src: u8)
    requires context { context < host.old.machine.numbers.callers }
    requires locals { (k < REGISTERS) × (src < REGISTERS) }
    ensures { DoesPlainly (call.static_set context k src) host.old host.new }
{
    host.static_set(context, k, src);
}

/// `Host::static_get`.
pub fn static_get(host: &mut Host, context: u32, dst: u8, k: u8) -> Option<Id>
    requires context { context < host.old.machine.numbers.callers }
    requires locals { (dst < REGISTERS) × (k < REGISTERS) }
    ensures { DoesPlainly (call.static_get context dst k result) host.old host.new }
{
    host.static_get(context, dst, k)
}

/// `Host::handle_new`.
pub fn handle_new(host: &mut Host, context: u32, make: Make, target: u8) -> Result<Handle, Fault>
    requires context { context < host.old.machine.numbers.callers }
    requires make { IsValidMake make }
    requires local { target < REGISTERS }
    ensures { DoesPlainly (call.handle_new context make target result) host.old host.new }
{
    host.handle_new(context, make, target)
}

/// `Host::handle_free`.
pub fn handle_free(host: &mut Host, handle: Handle) -> Result<(), Fault>
    ensures { DoesOn handle (call.free result) host.old host.new }
{
    host.handle_free(handle)
}

/// `Host::handle_get`.
pub fn handle_get(
    host: &mut Host,
    context: u32,
    handle: Handle,
    dst: u8,
) -> Result<Option<Id>, Fault>
    requires context { context < host.old.machine.numbers.callers }
    requires local { dst < REGISTERS }
    ensures { DoesOn handle (call.get context dst result) host.old host.new }
{
    host.handle_get(context, handle, dst)
}

/// `Host::handle_set`.
pub fn handle_set(host: &mut Host, context: u32, handle: Handle, src: u8) -> Result<(), Fault>
    requires context { context < host.old.machine.numbers.callers }
    requires local { src < REGISTERS }
    ensures { DoesOn handle (call.set context src result) host.old host.new }
{
    host.handle_set(context, handle, src)
}

/// `Host::secondary_get`.
pub fn secondary_get(
    host: &mut Host,
    context: u32,
    handle: Handle,
    dst: u8,
) -> Result<Option<Id>, Fault>
    requires context { context < host.old.machine.numbers.callers }
    requires local { dst < REGISTERS }
    ensures { DoesOn handle (call.secondary_get context dst result) host.old host.new }
{
    host.secondary_get(context, handle, dst)
}

/// `Host::secondary_set`.
pub fn secondary_set(host: &mut Host, context: u32, handle: Handle, src: u8) -> Result<(), Fault>
    requires context { context < host.old.machine.numbers.callers }
    requires local { src < REGISTERS }
    ensures { DoesOn handle (call.secondary_set context src result) host.old host.new }
{
    host.secondary_set(context, handle, src)
}

/// `Host::strength_set`.
pub fn strength_set(host: &mut Host, handle: Handle, strength: Strength) -> Result<(), Fault>
    ensures { DoesOn handle (call.strength_set strength result) host.old host.new }
{
    host.strength_set(handle, strength)
}

/// `Host::count_up`.
pub fn count_up(host: &mut Host, handle: Handle) -> Result<u64, Fault>
    ensures { DoesOn handle (call.count_up result) host.old host.new }
{
    host.count_up(handle)
}

/// `Host::count_down`.
pub fn count_down(host: &mut Host, handle: Handle) -> Result<u64, Fault>
    ensures { DoesOn handle (call.count_down result) host.old host.new }
{
    host.count_down(handle)
}

/// `Host::address`.
pub fn address(host: &mut Host, handle: Handle) -> Result<u32, Fault>
    ensures { DoesOn handle (call.address result) host.old host.new }
{
    host.address(handle)
}

/// `Host::handle_info`.
pub fn handle_info(host: &mut Host, handle: Handle) -> Result<HandleInfo<Id>, Fault>
    ensures { DoesOn handle (call.info result) host.old host.new }
{
    host.handle_info(handle)
}

/// `Host::handle_kind`.
pub fn handle_kind(host: &mut Host, handle: Handle) -> Result<Kind, Fault>
    ensures { DoesOn handle (call.kind result) host.old host.new }
{
    host.handle_kind(handle)
}

/// `Host::table_add`.
pub fn table_add(host: &mut Host, context: u32, key: u8, value: u8) -> Result<(), Fault>
    requires context { context < host.old.machine.numbers.callers }
    requires locals { (key < REGISTERS) × (value < REGISTERS) }
    ensures { DoesPlainly (call.table_add context key value result) host.old host.new }
{
    host.table_add(context, key, value)
}

/// `Host::table_find`.
pub fn table_find(host: &mut Host, context: u32, dst: u8, key: u8) -> Result<Lookup, Fault>
    requires context { context < host.old.machine.numbers.callers }
    requires locals { (dst < REGISTERS) × (key < REGISTERS) }
    ensures { DoesPlainly (call.table_find context dst key result) host.old host.new }
{
    host.table_find(context, dst, key)
}

/// `Host::table_remove`.
pub fn table_remove(host: &mut Host, context: u32, key: u8) -> Result<bool, Fault>
    requires context { context < host.old.machine.numbers.callers }
    requires local { key < REGISTERS }
    ensures { DoesPlainly (call.table_remove context key result) host.old host.new }
{
    host.table_remove(context, key)
}

/// `Host::collect`.
pub fn collect(host: &mut Host, n: u8) -> Result<Report, Fault>
    requires { n ≤ OLDEST }
    ensures { DoesPlainly (call.collect n result) host.old host.new }
{
    host.collect(n)
}

/// `Host::final_next`.
pub fn final_next(host: &mut Host, context: u32, dst: u8) -> Option<Id>
    requires context { context < host.old.machine.numbers.callers }
    requires local { dst < REGISTERS }
    ensures { DoesPlainly (call.final_next context dst result) host.old host.new }
{
    host.final_next(context, dst)
}

/// `Host::trim`.
pub fn trim(host: &mut Host, of: Kind) -> u32
    requires { is_paired of ≡ false }
    ensures { DoesPlainly (call.trim of result) host.old host.new }
{
    host.trim(of)
}

/// `Host::trim_block`.
pub fn trim_block(host: &mut Host, of: Kind) -> u32
    ensures { DoesPlainly (call.trim_block of result) host.old host.new }
{
    host.trim_block(of)
}

/// `Host::trim_all`.
pub fn trim_all(host: &mut Host) -> u32
    ensures { DoesPlainly (call.trim_all result) host.old host.new }
{
    host.trim_all()
}

/// `Host::root_of`.
pub fn root_of(host: &mut Host, context: u32, object: u8) -> Result<Option<Root>, Fault>
    requires context { context < host.old.machine.numbers.callers }
    requires local { object < REGISTERS }
    ensures { DoesPlainly (call.root_of context object result) host.old host.new }
{
    host.root_of(context, object)
}

/// `Host::recall`.
pub fn recall(host: &mut Host, last: &Last)
    ensures { DoesPlainly (call.recall last.now) host.old host.new }
{
    host.recall(last);
}

/// `Host::field_load`.
pub fn field_load(
    host: &mut Host,
    context: u32,
    dst: u8,
    object: u8,
    i: u8,
) -> Result<Loaded, Fault>
    requires context { context < host.old.machine.numbers.callers }
    requires locals { (dst < REGISTERS) × (object < REGISTERS) }
    ensures { DoesPlainly (call.field_load context dst object i result) host.old host.new }
{
    host.field_load(context, dst, object, i)
}

/// `Host::handle_load`.
pub fn handle_load(host: &mut Host, context: u32, handle: Handle, dst: u8) -> Result<Loaded, Fault>
    requires context { context < host.old.machine.numbers.callers }
    requires local { dst < REGISTERS }
    ensures { DoesOn handle (call.load context dst result) host.old host.new }
{
    host.handle_load(context, handle, dst)
}

/// `Host::object_make`.
pub fn object_make(
    host: &mut Host,
    context: u32,
    dst: u8,
    value: u64,
    fin: bool,
    src: &[u32],
) -> Result<Id, Fault>
    requires context { context < host.old.machine.numbers.callers }
    requires local { dst < REGISTERS }
    requires sources { (i : ℕ) → i < length src.now → slice_index src.now i < REGISTERS }
    requires few { length src.now ≤ FIELDS }
    ensures { DoesPlainly (call.object_make context dst value fin src.now result) host.old host.new }
{
    host.object_make(context, dst, value, fin, src)
}

/// `Host::table_set`.
pub fn table_set(host: &mut Host, context: u32, key: u8, value: u8) -> Result<bool, Fault>
    requires context { context < host.old.machine.numbers.callers }
    requires locals { (key < REGISTERS) × (value < REGISTERS) }
    ensures { DoesPlainly (call.table_set context key value result) host.old host.new }
{
    host.table_set(context, key, value)
}

/// `Host::local_pass`.
pub fn local_pass(host: &mut Host, to: u32, dst: u8, from: u32, src: u8) -> Option<Id>
    requires contexts { let n = host.old.machine.numbers in (to < n.callers) × (from < n.callers) }
    requires locals { (dst < REGISTERS) × (src < REGISTERS) }
    ensures { DoesPlainly (call.local_pass to dst from src result) host.old host.new }
{
    host.local_pass(to, dst, from, src)
}

/// `Host::locals_clear`.
pub fn locals_clear(host: &mut Host, context: u32, first: u8, n: u8)
    requires context { context < host.old.machine.numbers.callers }
    requires locals { first + n ≤ REGISTERS }
    ensures { DoesPlainly (call.locals_clear context first n) host.old host.new }
{
    host.locals_clear(context, first, n);
}

/// `Host::handle_id`.
pub fn handle_id(host: &mut Host, handle: Handle) -> Result<Option<Id>, Fault>
    ensures { DoesOn handle (call.target_id result) host.old host.new }
{
    host.handle_id(handle)
}
