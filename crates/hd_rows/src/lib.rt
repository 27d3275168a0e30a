//! Tests alone: calls of single crates, from streams to the collector, that no script reaches.
#![tactic(auto)]

#[cfg(test)]
mod checks;
#[cfg(test)]
mod heap;
#[cfg(test)]
mod io;
#[cfg(test)]
mod rounds;
#[cfg(test)]
mod same;
#[cfg(test)]
mod seg;
#[cfg(test)]
mod state;
