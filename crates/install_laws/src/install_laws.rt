//! How many verdicts are installed, and what is told of them.

ghost use Rattle.install_laws.specs.ScriptBacking.{PlayedIsBacked, WholeIsBacked, FewerAreBacked, LaterBacksScript};
ghost use Rattle.install_laws.specs.InstallLaws.{FirstInstallsAreGrounded, InstallsAreAsked, ApartInstallsStand, ChecksAreBacked, BackedStayBacked};

/// Where every grounded name is brought to a verdict before each edit and at the end, there are as many installs as the edits
/// ask for.
pub fn law_installs()
    ensures first { FirstInstallsAreGrounded }
    ensures later { InstallsAreAsked }
{}

/// Where each edit puts a text under a name that no module reaches, there are as many installs as names that stand.
pub fn law_installs_apart()
    ensures { ApartInstallsStand }
{}

/// Where every grounded name stands, what a check tells is backed, and stays so.
pub fn law_tellings()
    ensures checks { ChecksAreBacked }
    ensures later { BackedStayBacked }
{}

/// A history in which all that each command of a script tells stood when the command was played backs what is told of the
/// script, where so many bytes of its output are written; and the other way round, where all lines of commands are.
pub fn law_scripts()
    ensures played { PlayedIsBacked }
    ensures whole { WholeIsBacked }
    ensures fewer { FewerAreBacked }
    ensures later { LaterBacksScript }
{}
