//! Worked traces that are runs of the machine.

ghost use Rattle.std.specs.Prelude.{List, [], ◌∷◌, true, false};
ghost use Rattle.relaxed_file.specs.Traces.{IsRunOfSmall, IsRunWith, HasRegions, region, hello_trace, long_record_trace, two_rounds_trace, snapshot_trace, deletion_trace, empty_file_trace, quarter_record_trace, padding_trace, two_chunks_trace, second_try_trace};

/// What is written is read.
pub fn hello()
    ensures { IsRunOfSmall hello_trace }
{}

/// A record of more than a quarter of a chunk is refused.
pub fn long_record()
    ensures { IsRunOfSmall long_record_trace }
{}

/// A record fails in one round and succeeds in the next, and a reader at the old round sees the failed one.
pub fn two_rounds()
    ensures { IsRunOfSmall two_rounds_trace }
{}

/// A snapshot keeps others busy, and then the two files go their own ways.
pub fn snapshot()
    ensures { IsRunOfSmall snapshot_trace }
{}

/// A deleted file is found under its hidden name until it is collected.
pub fn deletion()
    ensures { IsRunOfSmall deletion_trace }
{}

/// A file without a chunk has no byte.
pub fn empty_file()
    ensures { IsRunOfSmall empty_file_trace }
{}

/// A record of a quarter of a chunk begins the file.
pub fn quarter_record()
    ensures { IsRunWith quarter_record_trace (HasRegions 1 0 (region 0 16 true ∷ [])) }
{}

/// A record that doesn't fit begins the next chunk, and the rest of the last one is padded with zeros.
pub fn padding()
    ensures { IsRunWith padding_trace (HasRegions 1 0 (region 0 64 true ∷ [])) }
{}

/// A write goes over the boundary of two chunks, and is read over it.
pub fn two_chunks()
    ensures { IsRunOfSmall two_chunks_trace }
{}

/// A record that one replica didn't get is tried again, and only its second place is determined.
pub fn second_try()
    ensures { IsRunWith second_try_trace (HasRegions 1 0 (region 0 13 false ∷ region 13 26 true ∷ [])) }
{}
