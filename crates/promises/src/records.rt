//! Laws of each run of the machine, in the words of calls and answers.

ghost use Rattle.promises.specs.Promises.{InEachRun, AnsweredRecordsLieApart, AnsweredRecordsStand, AppendedRecordsAreReadBack, AppendsLeaveRecordsAlone, DescriptorsAreOfOneFile, OwnRecordsAreRead, RecordsAreRead, RecordsKeepTheirPlace, SeenRoundsSuffice};

/// A client's descriptor is of one file for good.
pub fn descriptors_are_of_one_file()
    ensures { InEachRun DescriptorsAreOfOneFile }
{}

/// A record whose append was answered stands at its place of the file of its descriptor, and keeps that place for good.
pub fn answered_records_stand()
    ensures stand { InEachRun AnsweredRecordsStand }
    ensures keep { InEachRun RecordsKeepTheirPlace }
{}

/// Two records whose appends to one file were answered share no place of it.
pub fn answered_records_lie_apart()
    ensures { InEachRun AnsweredRecordsLieApart }
{}

/// A later read that begins no later than a record and whose answer reaches past it shows it whole, until a later mutation covers some of it; that of another client, where it names a round no earlier than the record's.
pub fn records_are_read()
    ensures any { InEachRun RecordsAreRead }
    ensures own { InEachRun OwnRecordsAreRead }
    ensures seen { InEachRun SeenRoundsSuffice }
{}

/// In a file that nobody writes into, nor into one that it goes back to by snapshots, each record stands uncovered, and its client reads it back, by each later read that begins no later and whose answer reaches past it.
pub fn appended_records_are_read_back()
    ensures alone { InEachRun AppendsLeaveRecordsAlone }
    ensures back { InEachRun AppendedRecordsAreReadBack }
{}
