//! Legal histories, and the log that they determine.

ghost use Rattle.board_laws.specs.HistoryLaws.{EmptyIsLegal, CallsKeepLegal, RunsKeepLegal, BeginningsAreLegal, EntriesDetermineLog, EditsWereMade, VersionsCountEdits, LegalLogsAreWithinLimits, EditsAreAppended, OthersLeaveLog, EndsAreOfClaimants, StaleEntriesTellReply, InstallEntriesTellReply, ClosesAreOfFront};

/// Whatever calls are made, by passes that may make them, the history is legal.
pub fn law_legal()
    ensures empty { EmptyIsLegal }
    ensures call { CallsKeepLegal }
    ensures calls { RunsKeepLegal }
    ensures beginning { BeginningsAreLegal }
{}

/// The entries determine the log, which is one that was made within the limits.
pub fn law_log()
    ensures entries { EntriesDetermineLog }
    ensures edits { EditsWereMade }
    ensures versions { VersionsCountEdits }
    ensures limits { LegalLogsAreWithinLimits }
{}

/// An edit call leaves the log that the log's rules give; another call leaves the log alone.
pub fn law_steps()
    ensures edits { EditsAreAppended }
    ensures others { OthersLeaveLog }
{}

/// Who made an entry, and what it tells: claims end by their own passes, with the reply of the machine; pass 0 closes, once.
pub fn law_entries()
    ensures ends { EndsAreOfClaimants }
    ensures stale { StaleEntriesTellReply }
    ensures installed { InstallEntriesTellReply }
    ensures closes { ClosesAreOfFront }
{}
