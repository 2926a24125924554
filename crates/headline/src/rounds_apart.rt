//! Laws of the open rounds of two chunks, which are apart.

ghost use Rattle.headline.specs.RoundsApart.{LoggedChunksAreApart, RoundsStayApart};

/// Of a chunk that stands in the log, each open round that isn't over is in its chunk of the machine just if it is the chunk's.
pub fn logged_chunks_are_apart()
    ensures { LoggedChunksAreApart }
{}

/// Whatever handle and spot are apart stay so over each event, but for the rounds that are granted in it.
pub fn rounds_stay_apart()
    ensures { RoundsStayApart }
{}
