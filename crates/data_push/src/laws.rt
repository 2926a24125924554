//! What a buffer gives, said over whole lists of calls.

ghost use Rattle.data_push.specs.Laws.{GivesLastPut, KeepsUntilDropped, KeepsTheNewest};

/// A take gives nothing but the data that were last put under that id and weren't taken since.
pub fn take_gives_what_was_last_put()
    ensures { GivesLastPut }
{}

/// Data that are not taken and not put anew stay until a put of other data into a full buffer, in which they are the oldest, drops them.
pub fn data_stay_until_taken_or_dropped()
    ensures { KeepsUntilDropped }
{}

/// A buffer for so many data drops none of these until so many others were put.
pub fn the_newest_data_stay()
    ensures { KeepsTheNewest }
{}
