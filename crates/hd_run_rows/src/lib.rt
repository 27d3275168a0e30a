//! Tests alone: runs of the program in memory, where streams fail, callers meet at a pace, and what
//! callers in threads print is judged; and worked rows.
#![tactic(auto)]

#[cfg(test)]
mod audits;
#[cfg(test)]
mod meeting;
#[cfg(test)]
mod row;
#[cfg(test)]
mod rows;
#[cfg(test)]
mod same;
#[cfg(test)]
mod streams;
#[cfg(test)]
mod world;
