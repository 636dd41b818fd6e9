// What every agreeing family of a wave keeps to, each law as the contract of a function with an empty body.

ghost use Rattle.trace_law.specs.Laws.{LeavesARest, FinishedLaterWave, HoldsAMovedRow, FinishedWithAnOldRowMoved, BeginsWithAll, LawfulCountsEachRow, FixedMovesNothing, FixedStays, NoLinkNoMessage, FinishedAnswers, FinishedReceivesAll, LimitsSuffice, SendsNothingWrong, TakesNothingWrong, StoresWhatItHolds, NoneIsStrange, KeepsALawfulJournal, LawfulIsBounded, LawfulRunIsBounded, EventsAreFew, FinishedAfterTwoMigrations, TakenIsDetermined, QuietIsFinished, CompleteIsFinished, AnswersInTheEnd, SortsIntoTheLoop};

/// A valid input and a valid setting are what the other laws ask for.
pub fn limits_suffice()
    ensures { LimitsSuffice }
{}

/// A run begins with a rest that stands for each valid input. Its wave has all rows and all pairs, so
/// with this rest each other law speaks of a whole run of one wave.
pub fn begins_with_all()
    ensures { BeginsWithAll }
{}

/// At every moment the pairs that joiners have sent are pairs of the nested loop with a row of the
/// wave, and none was sent twice.
pub fn sends_nothing_wrong()
    ensures { SendsNothingWrong }
{}

/// At every moment the pairs that the collector has taken are pairs of the nested loop with a row of
/// the wave, none taken twice.
pub fn takes_nothing_wrong()
    ensures { TakesNothingWrong }
{}

/// A joiner stores what it holds of the rows that were counted, those from before the wave included:
/// at most that in each step that it has opened, and all of it once the step is settled and all of
/// its epoch has come.
pub fn stores_what_it_holds()
    ensures { StoresWhatItHolds }
{}

/// Each row that is sent to a joiner has a cell for each column of its side.
pub fn none_is_strange()
    ensures { NoneIsStrange }
{}

/// Between joiners that no link joins nothing is sent.
pub fn no_link_no_message()
    ensures { NoLinkNoMessage }
{}

/// The journal of an agreeing family is lawful so far.
pub fn keeps_a_lawful_journal()
    ensures { KeepsALawfulJournal }
{}

/// A journal that is lawful so far has at most k migrations, and one decision that was due, for each
/// binary digit of the numbers of rows up to the wave's end.
pub fn lawful_is_bounded()
    ensures { LawfulIsBounded }
{}

/// The waves of a run have together no more migrations and decisions than that, with all their rows.
pub fn lawful_run_is_bounded()
    ensures { LawfulRunIsBounded }
{}

/// Where a shift is fixed no line leaves it, and there is no migration.
pub fn fixed_stays()
    ensures { FixedStays }
{}

/// A run with a fixed shift moves nothing.
pub fn fixed_moves_nothing()
    ensures { FixedMovesNothing }
{}

/// By a lawful journal each row has a stamp: it was counted, or is from before the wave.
pub fn lawful_counts_each_row()
    ensures { LawfulCountsEachRow }
{}

/// An agreeing family has at most 8·(rows + feeders + 2)·joiners·(migrations + 2) events.
pub fn events_are_few()
    ensures { EventsAreFew }
{}

/// What the actors of an agreeing family took is determined by its lists.
pub fn taken_is_determined()
    ensures { TakenIsDetermined }
{}

/// A quiet agreeing family is finished.
pub fn quiet_is_finished()
    ensures { QuietIsFinished }
{}

/// An agreeing family whose collector is complete is finished.
pub fn complete_is_finished()
    ensures { CompleteIsFinished }
{}

/// On each link of a finished family all that was sent was received.
pub fn finished_receives_all()
    ensures { FinishedReceivesAll }
{}

/// A finished family has a lawful journal, the wave's pairs and the numbers of the formulas, and its
/// last line and stores are a rest that stands for the input.
pub fn answers_in_the_end()
    ensures { AnswersInTheEnd }
{}

/// What the collector of a finished family answers is the run of its input, setting and journal.
pub fn finished_answers()
    ensures { FinishedAnswers }
{}

/// Pairs in order that are the wave's as a bag are the wave's in the nested loop's order.
pub fn sorts_into_the_loop()
    ensures { SortsIntoTheLoop }
{}

/// The premises of these laws can be met: a family with two migrations agrees and is finished.
pub fn some_family_migrates()
    ensures { FinishedAfterTwoMigrations }
{}

/// Such a family leaves a rest with all rows, so that the premises can be met in a later wave, too.
pub fn some_family_leaves_a_rest()
    ensures { LeavesARest }
{}

/// And so they can with two feeders, where a row of the old epoch is moved.
pub fn some_family_moves_an_old_row()
    ensures { FinishedWithAnOldRowMoved }
{}

/// On the way there, a joiner holds what was moved to it before any step of its own.
pub fn some_family_holds_a_moved_row()
    ensures { HoldsAMovedRow }
{}

/// And so they can in a later wave, where a row from before the wave is moved.
pub fn some_later_wave_moves_an_older_row()
    ensures { FinishedLaterWave }
{}
