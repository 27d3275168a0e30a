// How handles look, by what they are to a collection.
ghost use Rattle.std.specs.Prelude.{◌≡◌};
ghost use Rattle.hd_model.specs.Handles.{role_as};
ghost use Rattle.hd_model.specs.State.{secondary_of};
ghost use Rattle.hd_links.specs.Links.{extra_again};
ghost use Rattle.hd_graph.specs.Marks.{role_seen, style_of};

use crate::dot::Style;
use hd_links::handle_again;
use hd_model::{Id, Role};
use hd_seen::SeenHandle;

/// How a line from a handle to its target looks.
pub(crate) fn style(handle: &SeenHandle) -> Style
    ensures { result ≡ style_of (role_seen handle.now) }
{
    style_of(handle_again(*handle).role())
}

// The style of a role.
fn style_of(role: Role) -> Style
    ensures { result ≡ style_of (role_as role) }
{
    match role {
        Role::Holds => Style::Solid,
        Role::Short | Role::Long => Style::Dashed,
        Role::Attaches => Style::Dotted,
    }
}

/// The secondary of a handle, or null.
pub(crate) fn secondary(handle: &SeenHandle) -> Option<Id>
    ensures { result ≡ secondary_of (extra_again handle.now.extra) }
{
    handle_again(*handle).secondary()
}
