// The exports that give blocks of the table back.
ghost use Rattle.std.specs.Prelude.{◌≡◌};
ghost use Rattle.hd_model.specs.{declared.data.Kind.Kind, Kinds.kind_number};
ghost use Rattle.hd_host.specs.Turns.{TrimsAll, TrimsBlock};
ghost use Rattle.hdt_c.specs.Exports.{AlwaysRight, Comes, IsKind, NeverFails, Runs};

use crate::arguments::{is_kind, kind_of};
use crate::held::{Held, on_open};
use crate::status::OK;
use hd_host::Host;
use std::alloc::Global;

fn trim(host: &mut Host, kind: u32, given: &mut u32) -> u32
    requires { IsKind kind }
    ensures { Runs NeverFails (λ v w s. (of : Kind) × (kind_number of ≡ kind) ×
        TrimsBlock v of given.new w × (s ≡ OK)) (given.new ≡ given.old) host.old host.new result }
{
    let Some(of) = kind_of(kind) else {
        unreachable!()
    };
    *given = host.trim_block(of);
    OK
}

/// `hdt_trim`.
#[unsafe(no_mangle)]
pub extern "C" fn hdt_trim(alloc: Global, host: &mut Held, kind: u32, given: &mut u32) -> u32
    ensures { Comes (λ contexts. IsKind kind) (λ at. NeverFails) (λ at v w s. (of : Kind) ×
        (kind_number of ≡ kind) × TrimsBlock v of given.new w × (s ≡ OK)) (given.new ≡ given.old)
        host.old.value host.new.value result }
{
    on_open!(alloc, host, trim(kind, given) if is_kind(kind))
}

fn trim_all(host: &mut Host, given: &mut u32) -> u32
    ensures { Runs NeverFails (λ v w s. TrimsAll v given.new w × (s ≡ OK)) (given.new ≡ given.old)
        host.old host.new result }
{
    *given = host.trim_all();
    OK
}

/// `hdt_trim_all`.
#[unsafe(no_mangle)]
pub extern "C" fn hdt_trim_all(alloc: Global, host: &mut Held, given: &mut u32) -> u32
    ensures { Comes AlwaysRight (λ at. NeverFails) (λ at v w s. TrimsAll v given.new w × (s ≡ OK))
        (given.new ≡ given.old) host.old.value host.new.value result }
{
    on_open!(alloc, host, trim_all(given))
}
