//! Worked examples: each function does nothing, and its contract is proved by computing.

ghost use Rattle.board_laws.specs.Examples.{JobHasStamps, InstallIsStale, WayBackIsStale, StaleIsPending, ClaimedAgain, HistoryOfStaleInstall, SecondInstallIsInstalled, VerdictIsTold, NothingIsReady, CallsMayBeMade, AbsentNameIsInput, BothStand, OnlyDependantFalls, DependencyComesFirst, RingIsTold, RingIsNotReady, DroppedIsAbsent, ClosedIsNotReady, ClosedIsUsed, ClosedTellsVerdict, OthersMayNotCall, JobHasAnswers, AnswersAreTold, StaleClaimIsNoHindrance, CurrentClaimHinders};

/// A name is put again, and put back, between a claim and its install.
pub fn stale_install()
    ensures job { JobHasStamps }
    ensures stale { InstallIsStale }
    ensures way_back { WayBackIsStale }
    ensures pending { StaleIsPending }
    ensures again { ClaimedAgain }
    ensures history { HistoryOfStaleInstall }
    ensures installed { SecondInstallIsInstalled }
    ensures told { VerdictIsTold }
    ensures nothing { NothingIsReady }
    ensures may { CallsMayBeMade }
    ensures claimed_anew { StaleClaimIsNoHindrance }
    ensures claimed_once { CurrentClaimHinders }
{}

/// An absent name that a module names is put.
pub fn absent_dependency()
    ensures input { AbsentNameIsInput }
    ensures stand { BothStand }
    ensures falls { OnlyDependantFalls }
    ensures first { DependencyComesFirst }
{}

/// A module is judged after one that it names.
pub fn answers_of_dependency()
    ensures job { JobHasAnswers }
    ensures told { AnswersAreTold }
{}

/// Rings, dropped names, a closed board, and calls that a pass may not make.
pub fn other_replies()
    ensures ring { RingIsTold }
    ensures ring_not_ready { RingIsNotReady }
    ensures dropped { DroppedIsAbsent }
    ensures closed { ClosedIsNotReady }
    ensures closed_used { ClosedIsUsed }
    ensures closed_told { ClosedTellsVerdict }
    ensures may_not { OthersMayNotCall }
{}
