//! What a debugger shows of a run: why a text is none, what there is in a state, why objects live,
//! a graph of them, and a run as it goes, line by line.
#![tactic(auto)]

ghost use Rattle.hd_view.specs.Promise.{Promises};

mod accepted;
mod cause;
mod finding;
mod laws;
mod request;
mod script;
mod sets;
mod shown;
mod stated;
mod why;
mod why_text;

use crate::request::Task;
use crate::shown::{show, show_graph, show_paths};
use crate::why::explain;
use hd_io::{Sink, Source};
use hd_talk::talk;
pub use laws::{full_lines_state_parts, named_lines_may_come};
pub use request::{Request, read_request};
use std::alloc::Global;

/// Does what a request asks for: what is shown goes to `out`, and why a script or a line of it
/// cannot be read to `errors`, where what becomes of a write changes nothing. A dialogue writes a
/// prompt there before each line, if it is to. Returns the status: 0 where all was done; 3 where a
/// line has no reading or there are too many bytes; 4 where a read and 5 where a write to `out`
/// failed; 6 where memory ran out; and by `why` 7 where the text is that of no run.
pub fn look<S: Source, K: Sink, E: Sink>(
    alloc: Global,
    request: &Request,
    source: &mut S,
    out: &mut K,
    errors: &mut E,
    is_prompting: bool,
) -> u8
    ensures { Promises request.now.task request.now.limits (S.seen source.old) (S.seen source.new)
        (K.seen out.old) (K.seen out.new) result }
{
    match &request.task {
        Task::Why => explain(alloc, &request.limits, source, out),
        Task::Show(line) => show(alloc, &request.limits, *line, source, out, errors),
        Task::Path(ids) => show_paths(alloc, &request.limits, ids, source, out, errors),
        Task::Graph(by) => show_graph(alloc, &request.limits, *by, source, out, errors),
        Task::Step => {
            let limits = &request.limits;
            talk(
                alloc,
                limits.heap,
                limits.blocks,
                source,
                out,
                errors,
                is_prompting,
            )
        }
    }
}
