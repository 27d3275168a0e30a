// Handles over any names of objects.
ghost use Rattle.std.specs.Prelude.{◌≡◌, None};
ghost use Rattle.hd_model.specs.State.{secondary_of, without_secondary};
ghost use Rattle.hd_model.specs.Role as roles;
ghost use Rattle.hd_model.specs.Handles.{extra_of, handle_of, role_as};

use crate::data::{Kind, Strength};

/// What a handle has beside its target, by its kind. An object is referenced by a name of type N.
#[derive(Clone, Copy, Debug, PartialEq, Eq)]
pub enum Extra<N> {
    Nothing,
    Strength(Strength),
    Secondary(Option<N>),
    Count(u32),
}

/// A handle.
#[derive(Clone, Copy, Debug, PartialEq, Eq)]
pub struct Handle<N> {
    pub kind: Kind,
    pub target: Option<N>,
    pub extra: Extra<N>,
}

/// What a handle is to a collection.
#[derive(Clone, Copy, PartialEq, Eq)]
pub enum Role {
    Holds,
    Short,
    Long,
    Attaches,
}

impl<N: Copy + Drop> Handle<N> {
    /// Its role.
    pub fn role(&self) -> Role
        ensures { role_as result ≡ roles.role (handle_of self.now) }
    {
        role_by(self.kind, self.extra)
    }

    /// Whether it pins its target.
    pub fn pins(&self) -> bool
        ensures { result ≡ roles.pins (handle_of self.now) }
    {
        pins_by(self.kind, self.extra)
    }

    /// The same after it lost its target, and with that its secondary.
    pub fn cleared(self) -> Handle<N>
        ensures { let extra = without_secondary (extra_of self.extra) in
            handle_of result ≡ record (handle_of self) { target = None; extra = extra } }
    {
        Handle {
            kind: self.kind,
            target: None,
            extra: self.extra.without_secondary(),
        }
    }

    /// Its secondary, or null.
    pub fn secondary(&self) -> Option<N>
        ensures { result ≡ secondary_of (extra_of self.now.extra) }
    {
        secondary_in(self.extra)
    }
}

impl<N: Copy + Drop> Extra<N> {
    /// The same with null as its secondary, if it has one.
    pub fn without_secondary(self) -> Extra<N>
        ensures { extra_of result ≡ without_secondary (extra_of self) }
    {
        match self {
            Extra::Secondary(_) => Extra::Secondary(None),
            Extra::Nothing => Extra::Nothing,
            Extra::Strength(strength) => Extra::Strength(strength),
            Extra::Count(count) => Extra::Count(count),
        }
    }
}

// The secondary of an extra, or null.
fn secondary_in<N: Copy + Drop>(extra: Extra<N>) -> Option<N>
    ensures { result ≡ secondary_of (extra_of extra) }
{
    match extra {
        Extra::Secondary(secondary) => secondary,
        Extra::Nothing | Extra::Strength(_) | Extra::Count(_) => None,
    }
}

/// The role of a handle of a kind, by its extra. A variable one without a strength and a
/// ref-counted one without a count, which no table has, are as weak long ones.
#[inline]
pub fn role_by<N: Copy + Drop>(kind: Kind, extra: Extra<N>) -> Role
    ensures { role_as result ≡ roles.role_of kind (extra_of extra) }
{
    match kind {
        Kind::Short => Role::Short,
        Kind::Long => Role::Long,
        Kind::Strong | Kind::Pinned => Role::Holds,
        Kind::Dependent => Role::Attaches,
        Kind::Variable => match extra {
            Extra::Strength(strength) => role_of_strength(strength),
            Extra::Nothing | Extra::Secondary(_) | Extra::Count(_) => Role::Long,
        },
        Kind::Counted => match extra {
            Extra::Count(count) => role_of_count(count),
            Extra::Nothing | Extra::Secondary(_) | Extra::Strength(_) => Role::Long,
        },
    }
}

/// Whether a handle of a kind with an extra keeps its target from moving, as one made with
/// `GCHandleType.Pinned` does.
#[inline]
pub fn pins_by<N: Copy + Drop>(kind: Kind, extra: Extra<N>) -> bool
    ensures { result ≡ roles.pins_by kind (extra_of extra) }
{
    match kind {
        Kind::Pinned => true,
        Kind::Variable => match extra {
            Extra::Strength(strength) => pins_by_strength(strength),
            Extra::Nothing | Extra::Secondary(_) | Extra::Count(_) => false,
        },
        Kind::Short | Kind::Long | Kind::Strong | Kind::Counted | Kind::Dependent => false,
    }
}

// The role of a variable handle, by its strength.
fn role_of_strength(strength: Strength) -> Role
    ensures { role_as result ≡ roles.role_of_strength strength }
{
    match strength {
        Strength::Short => Role::Short,
        Strength::Long => Role::Long,
        Strength::Strong | Strength::Pinned => Role::Holds,
    }
}

// The role of a ref-counted handle, by its count.
fn role_of_count(count: u32) -> Role
    ensures { role_as result ≡ roles.role_of_count count }
{
    if count > 0 { Role::Holds } else { Role::Long }
}

// Whether a strength pins.
fn pins_by_strength(strength: Strength) -> bool
    ensures { result ≡ roles.pins_by_strength strength }
{
    match strength {
        Strength::Short | Strength::Long | Strength::Strong => false,
        Strength::Pinned => true,
    }
}
