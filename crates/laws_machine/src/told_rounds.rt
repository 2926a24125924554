//! Laws of what clients were told of chunks beside a machine that has the same chunks.

ghost use Rattle.laws_machine.specs.ToldRounds.{CountingRoundsAreOpenWhereTold, NoRoundIsToldAtFirst, ToldRoundsGoOn, ToldRoundsStayOver};
ghost use Rattle.laws_machine.specs.ToldShapes.{ToldShapesGoOn};
ghost use Rattle.laws_machine.specs.RoundSizes.{GrantedSizesFitTheSettings, RoundSizesGoOn};

/// In a new cell nothing was told.
pub fn no_round_is_told_at_first()
    ensures { NoRoundIsToldAtFirst }
{}

/// A told round whose lease is over stays over.
pub fn told_rounds_stay_over()
    ensures { ToldRoundsStayOver }
{}

/// From one world to the next each told round is open in the file's chunk of the told index, or over, where rounds end only of chunks whose leases are over.
pub fn told_rounds_go_on()
    ensures { ToldRoundsGoOn }
{}

/// The round under which a server may number a mutation is open in the file's chunk of the index for which a client was told it, and nowhere else.
pub fn counting_rounds_are_open_where_told()
    ensures { CountingRoundsAreOpenWhereTold }
{}

/// From one world to the next the shapes that clients were told are those of the machine's files, where it has made those of a master that is up.
pub fn told_shapes_go_on()
    ensures { ToldShapesGoOn }
{}

/// From one world to the next the open round of each lease has the size that its Grant told, also where the file was collected, if old rounds stay open or are over, and new ones are so.
pub fn round_sizes_go_on()
    ensures { RoundSizesGoOn }
{}

/// Where clocks are kept, a Grant tells a size of 64 bytes at least, and the settings' at most.
pub fn granted_sizes_fit_the_settings()
    ensures { GrantedSizesFitTheSettings }
{}
