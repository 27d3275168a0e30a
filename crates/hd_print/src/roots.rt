// The lines of a list of roots.
ghost use Rattle.std.specs.Prelude.{◌≡◌};
ghost use Rattle.hd_model.specs.RootText.{root_text, count_text};

use crate::command::kind_name;
use crate::line::Line;
use crate::reply::push_identity;
use hd_model::RootId;

/// The line of a root: its slot, its kind, and the object that it references.
pub fn root_line(root: RootId) -> Line
    ensures { result ≡ root_text root }
{
    let mut line = Line::new();
    line.push_str("root ");
    line.push_number(root.slot.0);
    line.push_str(" ");
    line.push_str(kind_name(root.kind));
    line.push_str(" ");
    push_identity(&mut line, root.id);
    line.push_str("\n");
    line
}

/// The last line of a list of roots, with their number.
pub fn roots_line(count: u32) -> Line
    ensures { result ≡ count_text count }
{
    let mut line = Line::new();
    line.push_str("roots ");
    line.push_number(count);
    line.push_str("\n");
    line
}
