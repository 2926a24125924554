//! Laws of lawful journals.

ghost use Rattle.promises.specs.Promises.{InEachRun};
ghost use Rattle.headline.specs.Journals.{JournalsAreExplained};
ghost use Rattle.headline.specs.AnswerKinds.{CallsHaveTheirAnswers};

/// The calls and answers of a lawful journal, in its order, are a run of the machine, under settings in their ranges and where clocks were kept;
/// and such a run keeps what users rely on.
pub fn journals_are_explained()
    ensures { JournalsAreExplained }
{}

/// In such a run each call that was answered has an answer to what it asks for, or a refusal.
pub fn calls_have_their_answers()
    ensures { InEachRun CallsHaveTheirAnswers }
{}
