ghost use Rattle.tr_model.specs.Laws.{
  EachSignalHasOneFate,
  FatesAgree,
  EndedIsNotPending,
  FatesSumToAccepted,
  NoReportIsConsumedTwice,
  ConsumedWasRaised,
  ReportsAreOpen,
  RestartStandsBetween,
  AfterAKillOnlyDying,
  TakesAreInOrder,
  IdsAreDistinct,
  NumbersAreAccepted,
  WaitingIsSorted,
  EntriesAreBounded,
  SomeIdIsFree,
};

// The laws of every journal that replays from a start. Each is the contract of a call that does nothing.

/// One fate: each accepted signal waits, is held, or was ended by exactly one entry, as merged, delivered, suppressed
/// or flushed; and the five totals sum to the accepted signals.
pub fn each_signal_has_one_fate()
    ensures one { EachSignalHasOneFate }
    ensures agree { FatesAgree }
    ensures ended { EndedIsNotPending }
    ensures sum { FatesSumToAccepted }
{}

/// One wait for each report: no two waits consume one report, and each that is consumed was raised before, for whom
/// it is consumed. What a table still shows was raised, and no wait has consumed it.
pub fn each_report_has_one_wait()
    ensures once { NoReportIsConsumedTwice }
    ensures raised { ConsumedWasRaised }
    ensures open { ReportsAreOpen }
{}

/// A restart between two stops: between two waits for stops of one thread it was restarted, lost its tracer, its
/// group began to die, or another thread of its group called execve(2).
pub fn a_restart_stands_between()
    ensures { RestartStandsBetween }
{}

/// The killed only die: after a KILL each thread of the group is told to leave, or dead.
pub fn the_killed_only_die()
    ensures { AfterAKillOnlyDying }
{}

/// First accepted, first taken: of two takes of one signal from one queue the earlier took the lesser number, unless
/// an execve(2) gave the queue's thread id to another thread between them.
pub fn first_accepted_first_taken()
    ensures { TakesAreInOrder }
{}

/// What a kernel leans on: ids in a table are distinct and some id is free, what waits stands in order of acceptance,
/// what waits or is held was accepted, and an entry accepts at most 1,024 signals and raises at most 2,048 reports.
pub fn tables_are_sound()
    ensures ids { IdsAreDistinct }
    ensures free { SomeIdIsFree }
    ensures sorted { WaitingIsSorted }
    ensures numbers { NumbersAreAccepted }
    ensures bounded { EntriesAreBounded }
{}
