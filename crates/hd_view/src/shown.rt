// The state to which a script leads, shown as a text.
ghost use Rattle.std.specs.Prelude.{◌≡◌, None, IfErr, IfOk, MatchResult};
ghost use Rattle.hd_model.specs.WellFormed.{IsWellFormed};
ghost use Rattle.hd_run.specs.Report.{IsReported, fault_status};
ghost use Rattle.hd_view.specs.{Script.RanTo, Inside.StopsBy};
ghost use Rattle.hd_view.specs.Shown.{AreChains, AreTables, IsGraph, ShowPromise};
ghost use Rattle.hd_world.specs.World.{WorldView};

use crate::script::world_of;
use hd_graph::{Clusters, push_graph};
use hd_io::{Failed, Sink, Source, write_all};
use hd_model::{Id, Memory};
use hd_path::push_paths;
use hd_run::{Fault, Limits};
use hd_show::show_text;
use hd_talk::seen_in;
use hd_world::World;
use std::alloc::Global;

// The status where not all was written.
const UNWRITTEN: u8 = 5;

/// Writes the tables of the state to which the script of a source leads, or its lines before
/// `line`.
pub(crate) fn show<S: Source, K: Sink, E: Sink>(
    alloc: Global,
    limits: &Limits,
    line: Option<u32>,
    source: &mut S,
    out: &mut K,
    errors: &mut E,
) -> u8
    ensures { ShowPromise AreTables limits.now line (S.seen source.old) (S.seen source.new)
        (K.seen out.old) (K.seen out.new) result }
{
    let shown = tables_of(alloc, limits, line, source, errors);
    write_shown(shown, out)
}

/// Writes for each object the least of the shortest chains to it, in the state to which the script
/// of a source leads.
pub(crate) fn show_paths<S: Source, K: Sink, E: Sink>(
    alloc: Global,
    limits: &Limits,
    ids: &[Id],
    source: &mut S,
    out: &mut K,
    errors: &mut E,
) -> u8
    ensures { ShowPromise (AreChains ids.now) limits.now None (S.seen source.old)
        (S.seen source.new) (K.seen out.old) (K.seen out.new) result }
{
    let shown = chains_of(alloc, limits, ids, source, errors);
    write_shown(shown, out)
}

/// Writes the graph of the state to which the script of a source leads.
pub(crate) fn show_graph<S: Source, K: Sink, E: Sink>(
    alloc: Global,
    limits: &Limits,
    clusters: Clusters,
    source: &mut S,
    out: &mut K,
    errors: &mut E,
) -> u8
    ensures { ShowPromise (IsGraph clusters) limits.now None (S.seen source.old)
        (S.seen source.new) (K.seen out.old) (K.seen out.new) result }
{
    let shown = graph_of(alloc, limits, clusters, source, errors);
    write_shown(shown, out)
}

// Writes a text, if there is one, and returns the status.
fn write_shown<K: Sink>(shown: Result<Vec<u8>, Fault>, out: &mut K) -> u8
    ensures { MatchResult shown
        (λ text. IsReported (K.seen out.old) (K.seen out.new) 0 text.items result)
        (λ fault. (K.seen out.new ≡ K.seen out.old) × (result ≡ fault_status fault)) }
{
    match shown {
        Ok(text) => match write_all(out, &text) {
            Ok(()) => 0,
            Err(Failed) => UNWRITTEN,
        },
        Err(fault) => fault.status(),
    }
}

// The tables.
fn tables_of<S: Source, E: Sink>(
    alloc: Global,
    limits: &Limits,
    line: Option<u32>,
    source: &mut S,
    errors: &mut E,
) -> Result<Vec<u8>, Fault>
    ensures shown { IfOk result (λ text. (w : WorldView)
        × RanTo limits.now line (S.seen source.old) (S.seen source.new) w
        × AreTables w text.items) }
    ensures stopped { IfErr result (StopsBy line (S.seen source.old) (S.seen source.new)) }
{
    let world = world_of(alloc, limits, line, source, errors)?;
    match tables(alloc, &world) {
        Ok(text) => Ok(text),
        Err(Memory) => Err(Fault::NoMemory),
    }
}

// The tables of a world.
fn tables(alloc: Global, world: &World) -> Result<Vec<u8>, Memory>
    ensures { IfOk result (λ text. AreTables world.now text.items) }
{
    let seen = seen_in(alloc, world)?;
    show_text(alloc, &seen)
}

// The chains.
fn chains_of<S: Source, E: Sink>(
    alloc: Global,
    limits: &Limits,
    ids: &[Id],
    source: &mut S,
    errors: &mut E,
) -> Result<Vec<u8>, Fault>
    ensures shown { IfOk result (λ text. (w : WorldView)
        × RanTo limits.now None (S.seen source.old) (S.seen source.new) w
        × AreChains ids.now w text.items) }
    ensures stopped { IfErr result (StopsBy None (S.seen source.old) (S.seen source.new)) }
{
    let world = world_of(alloc, limits, None, source, errors)?;
    match chains(alloc, &world, ids) {
        Ok(text) => Ok(text),
        Err(Memory) => Err(Fault::NoMemory),
    }
}

// The chains in a world.
fn chains(alloc: Global, world: &World, ids: &[Id]) -> Result<Vec<u8>, Memory>
    requires { IsWellFormed world.now.numbers world.now.state }
    ensures { IfOk result (λ text. AreChains ids.now world.now text.items) }
{
    let seen = seen_in(alloc, world)?;
    let mut text = Vec::new(alloc);
    push_paths(alloc, &mut text, &seen, ids)?;
    Ok(text)
}

// The graph.
fn graph_of<S: Source, E: Sink>(
    alloc: Global,
    limits: &Limits,
    clusters: Clusters,
    source: &mut S,
    errors: &mut E,
) -> Result<Vec<u8>, Fault>
    ensures shown { IfOk result (λ text. (w : WorldView)
        × RanTo limits.now None (S.seen source.old) (S.seen source.new) w
        × IsGraph clusters w text.items) }
    ensures stopped { IfErr result (StopsBy None (S.seen source.old) (S.seen source.new)) }
{
    let world = world_of(alloc, limits, None, source, errors)?;
    match graph(alloc, &world, clusters) {
        Ok(text) => Ok(text),
        Err(Memory) => Err(Fault::NoMemory),
    }
}

// The graph of a world.
fn graph(alloc: Global, world: &World, clusters: Clusters) -> Result<Vec<u8>, Memory>
    requires { IsWellFormed world.now.numbers world.now.state }
    ensures { IfOk result (λ text. IsGraph clusters world.now text.items) }
{
    let seen = seen_in(alloc, world)?;
    let mut text = Vec::new(alloc);
    push_graph(alloc, &mut text, &seen, clusters)?;
    Ok(text)
}
