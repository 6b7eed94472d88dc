//! Worked examples: each function does nothing, and its contract is proved by computing.

ghost use Rattle.run_examples.specs.ScriptExamples.{NothingIsPrinted, PutTwiceDroppedTwice, LogIsPrinted, UnendedText, BadCommand, LongComment, TooLongComment, CutInCommand, CutBehindCommand, CutInEndLine, CutBehindEndLine, CutInName, NoJudgement, LastReturnCounts, LastReturnIsBlank, CommentOfBytes, OtherLines, LogIsLeft, TellsGrounded};
ghost use Rattle.run_examples.specs.FolderExamples.{EmptyFolder, OtherFiles, BadFiles, PlacesAreInFiles, SecondOfName, SecondInFile, EndingAlone, DrawsAreMade, ParentsAreDrawn, EditsAreDrawn, TextsAreMade, FirstHasNoParent, EditsStandInOrder, FirstOfName, RefusalsAreSeen, UngroundedAreNotInstalled, UngroundedAreLeftOut};
ghost use Rattle.run_examples.specs.WordExamples.{PlaysAreAccepted, ChecksAreAccepted, GeneratorsAreAccepted, OthersAreNot, OthersAreAnswered};

/// Scripts, for any judging: what is printed, and faults; the log that a script leaves, and of what it tells.
pub fn scripts()
    ensures nothing_is_printed { NothingIsPrinted }
    ensures put_twice_dropped_twice { PutTwiceDroppedTwice }
    ensures log_is_printed { LogIsPrinted }
    ensures unended_text { UnendedText }
    ensures bad_command { BadCommand }
    ensures long_comment { LongComment }
    ensures too_long_comment { TooLongComment }
    ensures cut_in_command { CutInCommand }
    ensures cut_behind_command { CutBehindCommand }
    ensures cut_in_end_line { CutInEndLine }
    ensures cut_behind_end_line { CutBehindEndLine }
    ensures cut_in_name { CutInName }
    ensures no_judgement { NoJudgement }
    ensures last_return_counts { LastReturnCounts }
    ensures last_return_is_blank { LastReturnIsBlank }
    ensures comment_of_bytes { CommentOfBytes }
    ensures other_lines { OtherLines }
    ensures log_is_left { LogIsLeft }
    ensures tells_grounded { TellsGrounded }
{}

/// Folders: files that are loaded, left out or refused, and places in files.
pub fn folders()
    ensures empty_folder { EmptyFolder }
    ensures other_files { OtherFiles }
    ensures bad_files { BadFiles }
    ensures places_are_in_files { PlacesAreInFiles }
    ensures second_of_name { SecondOfName }
    ensures second_in_file { SecondInFile }
    ensures ending_alone { EndingAlone }
    ensures first_of_name { FirstOfName }
    ensures refusals_are_seen { RefusalsAreSeen }
{}

/// What the generator draws, and the texts that it makes.
pub fn draws()
    ensures draws_are_made { DrawsAreMade }
    ensures parents_are_drawn { ParentsAreDrawn }
    ensures edits_are_drawn { EditsAreDrawn }
    ensures texts_are_made { TextsAreMade }
    ensures first_has_no_parent { FirstHasNoParent }
    ensures edits_stand_in_order { EditsStandInOrder }
{}

/// Which verdicts edits ask for.
pub fn installs()
    ensures not_installed { UngroundedAreNotInstalled }
    ensures left_out { UngroundedAreLeftOut }
{}

/// Which lists of words are accepted, and how others are answered.
pub fn words()
    ensures plays_are_accepted { PlaysAreAccepted }
    ensures checks_are_accepted { ChecksAreAccepted }
    ensures generators_are_accepted { GeneratorsAreAccepted }
    ensures others_are_not { OthersAreNot }
    ensures others_are_answered { OthersAreAnswered }
{}
