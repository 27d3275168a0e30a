//! Tests alone: where the slots of one seat are, and callers who wake each other.
#![tactic(auto)]

#[cfg(test)]
mod blocks;
#[cfg(test)]
mod slots;
#[cfg(test)]
mod waking;
