// The last line of a run.
ghost use Rattle.std.specs.Prelude.{◌≡◌};
ghost use Rattle.hd_model.specs.Generated.{load_text};
ghost use Rattle.hd_model.specs.Text.{end_text};

use crate::line::Line;

/// The last line of a run: the live handles, the objects, reachable or not, and the collections.
pub fn end_line(handles: u32, objects: u32, collections: u32) -> Line
    ensures { result ≡ end_text handles objects collections }
{
    let mut line = Line::new();
    line.push_str("end handles ");
    line.push_number(handles);
    line.push_str(" objects ");
    line.push_number(objects);
    line.push_str(" collections ");
    line.push_number(collections);
    line.push_str("\n");
    line
}

/// The one line of a load: its commands, the objects that were made, the live handles, the
/// collections, and the sum of the values that were read. A load has 4 callers.
pub fn load_line(commands: u32, made: u32, live: u32, collections: u32, sum: u64) -> Line
    ensures { result ≡ load_text commands made live collections sum }
{
    let mut line = Line::new();
    line.push_str("load callers 4 commands ");
    line.push_number(commands);
    line.push_str(" made ");
    line.push_number(made);
    line.push_str(" live ");
    line.push_number(live);
    line.push_str(" collections ");
    line.push_number(collections);
    line.push_str(" sum ");
    line.push_number(sum);
    line.push_str("\n");
    line
}
