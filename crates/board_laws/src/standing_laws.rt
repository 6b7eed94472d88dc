//! Standing verdicts, ready names and installs.

ghost use Rattle.board_laws.specs.StandingLaws.{StandingIsDecided, StandingIsPresentAnswer, InputsArePresentReach, StandingIsGrounded, StandingRestsOnStanding, ReadyRestsOnStanding, LeastIsReady, EditLeavesStanding, InstallMakesStanding, OthersLeaveStanding, SomeNameIsReady, ClaimsAreOfLeastReady, StaleTellsFirstChanged, InstalledIsUnedited, InstalledIsUnchanged, ReportTellsAnswer, ReportTellsOthers, ClaimGivesJob, InstallIsOfWaiting, StandingNamesStand, InstallRaisesCount, OthersKeepCount, CountIsWithinNames};
ghost use Rattle.board_laws.specs.BackingLaws.{StandingIsBacked, BackedStaysBacked, BackedWasGrounded, ToldIsBacked, AnswersAreBacked};

/// A standing verdict is the answer at the present library, and a report tells no other. A claim gives a job where a name is
/// ready.
pub fn law_answers<A>()
    ensures standing { StandingIsPresentAnswer A }
    ensures report { ReportTellsAnswer A }
    ensures others { ReportTellsOthers A }
    ensures claim { ClaimGivesJob A }
{}

/// What a standing verdict says of the present library.
pub fn law_standing()
    ensures decided { StandingIsDecided }
    ensures inputs { InputsArePresentReach }
    ensures grounded { StandingIsGrounded }
    ensures rests { StandingRestsOnStanding }
{}

/// Which verdicts stand after one more entry.
pub fn law_next_entry()
    ensures edit { EditLeavesStanding }
    ensures install { InstallMakesStanding }
    ensures others { OthersLeaveStanding }
{}

/// Which names are ready.
pub fn law_ready()
    ensures some { SomeNameIsReady }
    ensures least { LeastIsReady }
    ensures claims { ClaimsAreOfLeastReady }
    ensures rests { ReadyRestsOnStanding }
{}

/// What an install finds: unchanged inputs, and a name without a standing verdict.
pub fn law_install()
    ensures stale { StaleTellsFirstChanged }
    ensures unedited { InstalledIsUnedited }
    ensures unchanged { InstalledIsUnchanged }
    ensures waiting { InstallIsOfWaiting }
{}

/// How many verdicts stand.
pub fn law_count()
    ensures names { StandingNamesStand }
    ensures install { InstallRaisesCount }
    ensures others { OthersKeepCount }
    ensures within { CountIsWithinNames }
{}

/// What is told is backed by the history.
pub fn law_backing<A>()
    ensures standing { StandingIsBacked }
    ensures later { BackedStaysBacked }
    ensures grounded { BackedWasGrounded }
    ensures told { ToldIsBacked A }
    ensures answers { AnswersAreBacked A }
{}
