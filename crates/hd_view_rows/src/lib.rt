//! Tests alone: what a debugger shows, explains and answers, each call once; and streams that fail.
#![tactic(auto)]

#[cfg(test)]
mod faults;
#[cfg(test)]
mod seen;
#[cfg(test)]
mod talk;
