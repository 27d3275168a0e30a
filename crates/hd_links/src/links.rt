// What handles and entries of the weak table do for chains.
ghost use Rattle.std.specs.Prelude.{◌≡◌, ◌++◌, IfOk, map};
ghost use Rattle.hd_model.specs.Handles.{extra_of, handle_of, role_as};
ghost use Rattle.hd_links.specs.Links.{entry_link, extra_again, handle_again, handle_link, held_by};
ghost use Rattle.hd_links.specs.Links.{is_at, links_in, source_by};

use hd_model::{Extra, Handle, Id, Kind, Role, Slot};
use hd_seen::{SeenEntry, SeenExtra, SeenHandle};
use std::alloc::{AllocError, Global};

/// What a slot does: the object that its handle holds; or the object that it attaches another to,
/// and the other. An entry of the weak table attaches its value to its key.
#[derive(Clone, Copy)]
pub struct Link {
    pub slot: Slot,
    pub kind: Kind,
    pub is_entry: bool,
    pub held: Option<Id>,
    pub source: Option<Id>,
    pub attached: Option<Id>,
}

/// A handle as the machine has it.
pub fn handle_again(seen: SeenHandle) -> Handle<Id>
    ensures { handle_of result ≡ handle_again seen }
{
    Handle {
        kind: seen.kind,
        target: seen.target,
        extra: extra_again(seen.extra),
    }
}

// What it has beside its target.
fn extra_again(seen: SeenExtra) -> Extra<Id>
    ensures { extra_of result ≡ extra_again seen }
{
    match seen {
        SeenExtra::Nothing => Extra::Nothing,
        SeenExtra::Strength(strength) => Extra::Strength(strength),
        SeenExtra::Secondary(secondary) => Extra::Secondary(secondary),
        SeenExtra::Count(count) => Extra::Count(count),
    }
}

/// What all handles and all entries do.
pub(crate) fn links_of(
    alloc: Global,
    handles: &[SeenHandle],
    entries: &[SeenEntry],
) -> Result<Vec<Link>, AllocError>
    ensures { IfOk result (λ links. links.items ≡ links_in handles.now entries.now) }
{
    let mut links = Vec::new(alloc);
    add_handles(handles, &mut links)?;
    add_entries(entries, &mut links)?;
    Ok(links)
}

// Adds what handles do.
fn add_handles(handles: &[SeenHandle], links: &mut Vec<Link>) -> Result<(), AllocError>
    ensures { IfOk result (λ _. links.new.items ≡ links.old.items ++ map handle_link handles.now) }
{
    for handle in handles {
        links.push(link_of_handle(*handle))?;
    }
    Ok(())
}

// Adds what entries do.
fn add_entries(entries: &[SeenEntry], links: &mut Vec<Link>) -> Result<(), AllocError>
    ensures { IfOk result (λ _. links.new.items ≡ links.old.items ++ map entry_link entries.now) }
{
    for entry in entries {
        links.push(link_of_entry(*entry))?;
    }
    Ok(())
}

// What a handle does.
fn link_of_handle(seen: SeenHandle) -> Link
    ensures { result ≡ handle_link seen }
{
    let handle = handle_again(seen);
    let role = handle.role();
    Link {
        slot: seen.slot,
        kind: seen.kind,
        is_entry: false,
        held: held_by(role, seen.target),
        source: source_by(role, seen.target),
        attached: handle.secondary(),
    }
}

// What an entry does.
fn link_of_entry(entry: SeenEntry) -> Link
    ensures { result ≡ entry_link entry }
{
    Link {
        slot: entry.slot,
        kind: Kind::Dependent,
        is_entry: true,
        held: None,
        source: entry.key,
        attached: entry.value,
    }
}

// The target of a handle that holds it.
fn held_by(role: Role, target: Option<Id>) -> Option<Id>
    ensures { result ≡ held_by (role_as role) target }
{
    match role {
        Role::Holds => target,
        Role::Short | Role::Long | Role::Attaches => None,
    }
}

// The target of a handle that attaches something to it.
fn source_by(role: Role, target: Option<Id>) -> Option<Id>
    ensures { result ≡ source_by (role_as role) target }
{
    match role {
        Role::Attaches => target,
        Role::Holds | Role::Short | Role::Long => None,
    }
}

/// Whether a reference is of an object.
pub fn is(reference: Option<Id>, id: Id) -> bool
    ensures { result ≡ is_at reference id }
{
    match reference {
        Some(other) => other.0 == id.0,
        None => false,
    }
}
