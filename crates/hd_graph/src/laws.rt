// What is so of what is seen. These functions do nothing: they are there for their contracts.
ghost use Rattle.hd_graph.specs.Laws.{GreyIsRemoved, PicturesRise};

/// What is seen of a state has its objects by rising identity, as `push_graph` requires.
pub fn pictures_rise()
    ensures { PicturesRise }
{}

/// Of what is seen of a state that a run may reach, `push_graph` draws in grey exactly what a
/// collection of all generations removes: by the machine's step, and as garbage.
pub fn grey_is_removed()
    ensures { GreyIsRemoved }
{}
