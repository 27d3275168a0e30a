// `gcroot`: where a shortest chain to an object begins, which changes nothing.
ghost use Rattle.std.specs.Prelude.{◌≡◌, ◌<◌, IsSome, IfOk};
ghost use Rattle.std.specs.FinMap.{get};
ghost use Rattle.hd_model.specs.declared.command.Cmd.TheVariants as cmds;
ghost use Rattle.hd_model.specs.Anchors.{ReturnsRoot};
ghost use Rattle.hd_store.specs.Reading.{name_in};
ghost use Rattle.hd_commands.specs.Done.{done_of, done_with, entry_by};
ghost use Rattle.hd_store.specs.{Inside.IsPlainStep, Replies.root_reply};

use crate::anchors::{anchors, statics};
use crate::collection_calls::Root;
use crate::contents::Contents;
use hd_commands::on_objects::object_in;
use hd_model::limits::REGISTERS;
use hd_model::{Addr, Memory, Refusal};
use hd_root::search;
use hd_scan::gather_alone;

impl Contents {
    // Where a shortest chain to an object begins, by identity. It takes memory for the anchors and
    // for what it reaches.
    fn root_of(&self, goal: Addr) -> Result<Option<Root>, Memory>
        requires { IsSome (get self.now.names goal.0) }
        ensures { let id = name_in self.now.names goal in
            IfOk result (λ root. ReturnsRoot self.now.state id (root_reply root)) }
    {
        let held = gather_alone(self.alloc, &self.table, self.ages.blocks())?;
        let statics = statics(&self.roots, self.handle_registers.len());
        let anchors = anchors(self.alloc, statics, &self.queue, &held)?;
        match search(self.alloc, &self.heap, &self.table, &anchors, goal)? {
            Some(chain) => Ok(Some(Root {
                from: self.heap.id(chain.at(0)),
                arrows: chain.len() - 1,
            })),
            None => Ok(None),
        }
    }
}

/// `gcroot rS`.
pub(crate) fn return_root(
    store: &Contents,
    caller: u32,
    r: u8,
) -> Result<Result<Option<Root>, Refusal>, Memory>
    requires caller { caller < store.now.numbers.callers }
    requires register { r < REGISTERS }
    ensures { let c = cmds.GcRoot r in IfOk result (λ came.
        IsPlainStep store.now c store.now (entry_by caller c (done_of (done_with root_reply came)))) }
{
    match object_in(store, caller, r) {
        Ok(at) => Ok(Ok(store.root_of(at)?)),
        Err(refusal) => Ok(Err(refusal)),
    }
}
