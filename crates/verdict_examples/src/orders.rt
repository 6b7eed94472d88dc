//! Worked cases of the order of tests: of a module that breaks several rules, the first one is told, at its place, with its label.
//! Each function here does nothing, and its contract is proved by computing.

ghost use Rattle.verdict_examples.specs.LinkOrder.{UnknownTargetBeforeOverlap, TargetBehindASharedStructure, StructureOfAnAssignedConstant, OverlapBeforeWords, SharedByALinkFromATheoryThatIncludesTheDomain, SharedByALinkFromATheoryThatTheDomainIncludes, CoveringLinkFromATheoryThatIsNotIncluded, CoveringLinkIntoAnIncludedTheory, RowThroughAnInclusion, SecondWordBad, EndsOfARowOfTwo, WordWithoutStructure, DefinitionClashInAStructure, SharedStructureWithAnotherDefinition, DuplicateBeforeTheModuleTest, StructureNamedAsAConstant, ConstantNamedAsAStructure, UnknownDomainOfAStructure, BothEndsUnknown, CodomainUnknown, CycleAtAnEndOfAView, CycleAtTheFirstOfBothEnds, CycleAtAWordOfASharedStructure, CycleAtACoveringWord, OwnNameAloneIsADependency, OwnWordIsNone, CoveringsBeforeValues, FirstPassBeforeCoverings, ValuesInTheOrderOfConstants, ValueDoesNotSeeItsStructure, MissingAssignmentBeforeALaterValue, IdentityOfOneTheoryAndALinkOfAnother, IdentityTheSecondOfTwoLinksDiffers, IdentityOnOneThenTwoLinksOfWhichOneDiffers, LateTheoryIsNotCoveredEarlyCoveringsDisagree, AssignedValueUnderTheTranslatedClass, IdentityIsGivenUpWhereALinkCovers, CycleAtTheDomainOfAStructureBeforeItsWords, TwoLinksDifferFromTheIdentity};
ghost use Rattle.verdict_examples.specs.TermOrder.{CycleBeforeWrongName, ArgumentsBeforeTheClassifier, UnknownNameAtAProduct, ValueOfAnotherLevel, LambdaAsAHead, LambdaAtAnAtomicFamilyBeforeItsDomain, OrderInARowOfBackArrows, ApplicationAtAKindWithADomain, LambdaAtType, LevelBeforeArguments, WrongNameBeforeDeclarations, SecondInclusion, AnnotationBeforeTheBody};

/// Structures and views.
pub fn links()
    ensures unknown_target_before_overlap { UnknownTargetBeforeOverlap }
    ensures target_behind_a_shared_structure { TargetBehindASharedStructure }
    ensures structure_of_an_assigned_constant { StructureOfAnAssignedConstant }
    ensures overlap_before_words { OverlapBeforeWords }
    ensures shared_by_a_link_from_a_theory_that_includes_the_domain { SharedByALinkFromATheoryThatIncludesTheDomain }
    ensures shared_by_a_link_from_a_theory_that_the_domain_includes { SharedByALinkFromATheoryThatTheDomainIncludes }
    ensures covering_link_from_a_theory_that_is_not_included { CoveringLinkFromATheoryThatIsNotIncluded }
    ensures covering_link_into_an_included_theory { CoveringLinkIntoAnIncludedTheory }
    ensures row_through_an_inclusion { RowThroughAnInclusion }
    ensures second_word_bad { SecondWordBad }
    ensures ends_of_a_row_of_two { EndsOfARowOfTwo }
    ensures word_without_structure { WordWithoutStructure }
    ensures definition_clash_in_a_structure { DefinitionClashInAStructure }
    ensures shared_structure_with_another_definition { SharedStructureWithAnotherDefinition }
    ensures duplicate_before_the_module_test { DuplicateBeforeTheModuleTest }
    ensures structure_named_as_a_constant { StructureNamedAsAConstant }
    ensures constant_named_as_a_structure { ConstantNamedAsAStructure }
    ensures unknown_domain_of_a_structure { UnknownDomainOfAStructure }
    ensures both_ends_unknown { BothEndsUnknown }
    ensures codomain_unknown { CodomainUnknown }
    ensures cycle_at_an_end_of_a_view { CycleAtAnEndOfAView }
    ensures cycle_at_the_first_of_both_ends { CycleAtTheFirstOfBothEnds }
    ensures cycle_at_a_word_of_a_shared_structure { CycleAtAWordOfASharedStructure }
    ensures cycle_at_a_covering_word { CycleAtACoveringWord }
    ensures own_name_alone_is_a_dependency { OwnNameAloneIsADependency }
    ensures own_word_is_none { OwnWordIsNone }
    ensures coverings_before_values { CoveringsBeforeValues }
    ensures first_pass_before_coverings { FirstPassBeforeCoverings }
    ensures values_in_the_order_of_constants { ValuesInTheOrderOfConstants }
    ensures value_does_not_see_its_structure { ValueDoesNotSeeItsStructure }
    ensures missing_assignment_before_a_later_value { MissingAssignmentBeforeALaterValue }
    ensures identity_of_one_theory_and_a_link_of_another { IdentityOfOneTheoryAndALinkOfAnother }
    ensures identity_the_second_of_two_links_differs { IdentityTheSecondOfTwoLinksDiffers }
    ensures identity_on_one_then_two_links_of_which_one_differs { IdentityOnOneThenTwoLinksOfWhichOneDiffers }
    ensures late_theory_is_not_covered_early_coverings_disagree { LateTheoryIsNotCoveredEarlyCoveringsDisagree }
    ensures assigned_value_under_the_translated_class { AssignedValueUnderTheTranslatedClass }
    ensures identity_is_given_up_where_a_link_covers { IdentityIsGivenUpWhereALinkCovers }
    ensures cycle_at_the_domain_of_a_structure_before_its_words { CycleAtTheDomainOfAStructureBeforeItsWords }
    ensures two_links_differ_from_the_identity { TwoLinksDifferFromTheIdentity }
{}

/// Declarations, names and expressions.
pub fn declarations()
    ensures cycle_before_wrong_name { CycleBeforeWrongName }
    ensures arguments_before_the_classifier { ArgumentsBeforeTheClassifier }
    ensures unknown_name_at_a_product { UnknownNameAtAProduct }
    ensures value_of_another_level { ValueOfAnotherLevel }
    ensures lambda_as_a_head { LambdaAsAHead }
    ensures lambda_at_an_atomic_family_before_its_domain { LambdaAtAnAtomicFamilyBeforeItsDomain }
    ensures order_in_a_row_of_back_arrows { OrderInARowOfBackArrows }
    ensures application_at_a_kind_with_a_domain { ApplicationAtAKindWithADomain }
    ensures lambda_at_type { LambdaAtType }
    ensures level_before_arguments { LevelBeforeArguments }
    ensures wrong_name_before_declarations { WrongNameBeforeDeclarations }
    ensures second_inclusion { SecondInclusion }
    ensures annotation_before_the_body { AnnotationBeforeTheBody }
{}
