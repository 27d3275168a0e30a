// Laws of what is written, against `gcroot`.
ghost use Rattle.hd_path.specs.PathLaws.{ChainsBeginAtRoots, NoChainIsUnrooted};

/// The chain that is written of an object begins at the anchor that `gcroot` returns, and has as
/// many edges.
pub fn chains_begin_at_roots()
    ensures { ChainsBeginAtRoots }
{}

/// Where no chain is written of an object `gcroot` returns that it is unrooted.
pub fn no_chain_is_unrooted()
    ensures { NoChainIsUnrooted }
{}
