// The blocks of a store's table, by kind.
ghost use Rattle.std.specs.Prelude.{◌≡◌, ◌≤◌, ◌++◌, Some, filter_map, flat_map, map, IfOk, OnOk};
ghost use Rattle.std.specs.FinMap.{entries, get};
ghost use Rattle.std.specs.Option.{option_to_list, option_and_then};
ghost use Rattle.hd_model.specs.Kinds.{all_kinds};
ghost use Rattle.hd_seen.specs.Seen.{blocks_seen, chain_seen, data_block, data_seen};

use crate::growing::add;
use hd_model::Kind;
use hd_seen::SeenBlock;
use hd_seg::{BlockKind, Seg};
use hd_store::Store;
use std::alloc::{AllocError, Global};

/// The blocks in use: those of each kind in the order of its chain, and then those of extra data.
pub(crate) fn blocks(alloc: Global, store: &Store) -> Result<Vec<SeenBlock>, AllocError>
    ensures { IfOk result (λ seen. seen.items ≡ blocks_seen store.now.table) }
{
    let mut seen = Vec::new(alloc);
    let contents = store.contents();
    add_chains(&mut seen, contents.table())?;
    add_data(&mut seen, contents.table(), contents.blocks())?;
    Ok(seen)
}

// Adds the blocks of handles, kind by kind.
fn add_chains(seen: &mut Vec<SeenBlock>, table: &Seg) -> Result<(), AllocError>
    ensures { OnOk result
        (seen.new.items ≡ seen.old.items ++ flat_map (chain_seen table.now) all_kinds) }
{
    for kind in Kind::ALL {
        add_chain(seen, table, kind)?;
    }
    Ok(())
}

// Adds the blocks of a kind, in the order of its chain.
fn add_chain(seen: &mut Vec<SeenBlock>, table: &Seg, kind: Kind) -> Result<(), AllocError>
    ensures { OnOk result (seen.new.items ≡ seen.old.items ++ chain_seen table.now kind) }
{
    let mut next = table.first(kind);
    while let Some(number) = next {
        seen.push(SeenBlock {
            number,
            kind: Some(kind),
        })?;
        next = table.after(number);
    }
    Ok(())
}

// Adds the blocks of extra data, by rising number.
fn add_data(seen: &mut Vec<SeenBlock>, table: &Seg, blocks: u32) -> Result<(), AllocError>
    requires { blocks ≡ table.now.blocks }
    ensures { OnOk result
        (seen.new.items ≡ seen.old.items ++ filter_map data_seen (entries table.now.uses)) }
{
    // For the proof: a block in use is one of the table's.
    let _given = table.given();
    for i in 0..blocks {
        let block = data_at(table, i + 1);
        add(seen, block)?;
    }
    Ok(())
}

// A block of the table, if it has extra data.
fn data_at(table: &Seg, number: u32) -> Option<SeenBlock>
    requires low { 1 ≤ number }
    requires high { number ≤ table.now.blocks }
    ensures { result ≡ option_and_then (data_block number) (get table.now.uses number) }
{
    match table.block_kind(number) {
        BlockKind::Extras => Some(SeenBlock { number, kind: None }),
        BlockKind::Unused | BlockKind::Rows(_) => None,
    }
}
