//! Laws of the shapes that the master tells clients in a step, and of those that clients keep, of any state and any input.

ghost use Rattle.laws_base.specs.OpenShapes.{CallsKeepOpenShapes, OpenShapesWereTold};
ghost use Rattle.laws_base.specs.ToldShapes.{OpenedShapesAreLogged, ToldShapesAreOfTheirChunks};

/// A file that an Open found has a name that the master has logged, and is told with the shape that is logged of it.
pub fn opened_shapes_are_logged()
    ensures { OpenedShapesAreLogged }
{}

/// Where a chunk is, is told with the chunk's shape, or, where its handle is new, with that of some file.
pub fn told_shapes_are_of_their_chunks()
    ensures { ToldShapesAreOfTheirChunks }
{}

/// After a step a client's open file has the shape that it had, or the one that a Named tells which came in.
pub fn open_shapes_were_told()
    ensures { OpenShapesWereTold }
{}

/// A call changes no shape of an open file.
pub fn calls_keep_open_shapes()
    ensures { CallsKeepOpenShapes }
{}
