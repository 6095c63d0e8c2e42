//! What is known of an entry before it is made: which ends may still come, what there is to write down, and whether it
//! collects. Each function's contract is the law, and its body is empty.

ghost use Rattle.jlr_histories.specs.Collecting.{NoCollectionUnlessItMay};
ghost use Rattle.jlr_histories.specs.Owing.{EndLowersWhatIsOwed, OwedIsBounded};
ghost use Rattle.jlr_histories.specs.Rooms.{AnswersFit, NewObjectsFit};

/// At most 129 ends are owed at any time.
pub fn owed_is_bounded()
    ensures { OwedIsBounded }
{}

/// An end that is not refused is one of those that were owed.
pub fn an_end_lowers_what_is_owed()
    ensures { EndLowersWhatIsOwed }
{}

/// A list answer comes only to an ask for a list, and has at most 256 items.
pub fn answers_fit()
    ensures { AnswersFit }
{}

/// An entry has at most as many new objects as its ask makes.
pub fn new_objects_fit()
    ensures { NewObjectsFit }
{}

/// A collection comes only with an ask that may collect.
pub fn no_collection_unless_it_may()
    ensures { NoCollectionUnlessItMay }
{}
