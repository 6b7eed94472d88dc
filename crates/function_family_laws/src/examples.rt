//! Worked examples: each function does nothing, and its contract is proved by computing.

ghost use Rattle.function_family_laws.specs.Examples.{EachBaseIsReplaced, BaseBecomesArrow, BaseBecomesBase, ObjectLeavesBase, BaseIsItsDomain, BaseIsItsCodomain, AppliedTwice, LambdaOverFunction, VariableIsLong, DomainsInOrder, UnlistedVariable, UnlistedHasNoType, ConstantWithoutImage, ArgumentAtDomain, IllSortedVariable, LambdaAtBase, SameIsLong, TermIsItself, SameHasType, TermHasType, FamilyLeavesObject, KindLeavesObject, FamilyBecomesFunction, VariableBehindPi, SpineIsTaken, FamilyArgumentAtDomain, BindersAreTaken, BinderAtFunction, KindLeftOnSpine, KindLeftWithBinder, BinderIsLeft, ArgumentWithoutDomain, ObjectLeavesFamily, FamilyWithoutImage, NoImageIsAtType, VariableBehindPiKind, KindIsTranslated, FamilyIsTranslated, ContextIsTranslated, DomainsAreErased, SameIsImage, SameStays, TermIsTranslated, TermAtClass, TermBecomesSame, FamilyBehindDomains, FamilyBecomesSame, TermAtKindStays, FamilyAtFamilyStays, ImagesAreTranslated, OneAfterTheOther, BothAtOnce, TypedAtFamily, TypedAtConstant, ValuesAgree, ValuesDiffer};

/// Simple types along a map, and the parts of a simple type.
pub fn simple_type_examples()
    ensures each_base_is_replaced { EachBaseIsReplaced }
    ensures base_becomes_arrow { BaseBecomesArrow }
    ensures base_becomes_base { BaseBecomesBase }
    ensures object_leaves_base { ObjectLeavesBase }
    ensures base_is_its_domain { BaseIsItsDomain }
    ensures base_is_its_codomain { BaseIsItsCodomain }
{}

/// Objects: variables and arguments in their long forms.
pub fn object_examples()
    ensures applied_twice { AppliedTwice }
    ensures lambda_over_function { LambdaOverFunction }
    ensures variable_is_long { VariableIsLong }
    ensures domains_in_order { DomainsInOrder }
    ensures unlisted_variable { UnlistedVariable }
    ensures unlisted_has_no_type { UnlistedHasNoType }
    ensures constant_without_image { ConstantWithoutImage }
    ensures argument_at_domain { ArgumentAtDomain }
    ensures ill_sorted_variable { IllSortedVariable }
    ensures lambda_at_base { LambdaAtBase }
{}

/// What object constants stand for.
pub fn constant_examples()
    ensures same_is_long { SameIsLong }
    ensures term_is_itself { TermIsItself }
    ensures same_has_type { SameHasType }
    ensures term_has_type { TermHasType }
    ensures family_leaves_object { FamilyLeavesObject }
    ensures kind_leaves_object { KindLeavesObject }
{}

/// Families that take arguments, on the spine and for binders.
pub fn family_examples()
    ensures family_becomes_function { FamilyBecomesFunction }
    ensures variable_behind_pi { VariableBehindPi }
    ensures spine_is_taken { SpineIsTaken }
    ensures family_argument_at_domain { FamilyArgumentAtDomain }
    ensures binders_are_taken { BindersAreTaken }
    ensures binder_at_function { BinderAtFunction }
    ensures kind_left_on_spine { KindLeftOnSpine }
    ensures kind_left_with_binder { KindLeftWithBinder }
    ensures binder_is_left { BinderIsLeft }
    ensures argument_without_domain { ArgumentWithoutDomain }
    ensures object_leaves_family { ObjectLeavesFamily }
    ensures family_without_image { FamilyWithoutImage }
    ensures no_image_is_at_type { NoImageIsAtType }
{}

/// Kinds, classes, contexts and the domains of kinds.
pub fn class_examples()
    ensures variable_behind_pi_kind { VariableBehindPiKind }
    ensures kind_is_translated { KindIsTranslated }
    ensures family_is_translated { FamilyIsTranslated }
    ensures context_is_translated { ContextIsTranslated }
    ensures domains_are_erased { DomainsAreErased }
{}

/// Values at their translated classes.
pub fn value_examples()
    ensures same_is_image { SameIsImage }
    ensures same_stays { SameStays }
    ensures term_is_translated { TermIsTranslated }
    ensures term_at_class { TermAtClass }
    ensures term_becomes_same { TermBecomesSame }
    ensures family_behind_domains { FamilyBehindDomains }
    ensures family_becomes_same { FamilyBecomesSame }
    ensures term_at_kind_stays { TermAtKindStays }
    ensures family_at_family_stays { FamilyAtFamilyStays }
{}

/// The composition of two maps.
pub fn composition_examples()
    ensures images_are_translated { ImagesAreTranslated }
    ensures one_after_the_other { OneAfterTheOther }
    ensures both_at_once { BothAtOnce }
{}

/// Constants at which a map is typed.
pub fn typed_map_examples()
    ensures typed_at_family { TypedAtFamily }
    ensures typed_at_constant { TypedAtConstant }
    ensures values_agree { ValuesAgree }
    ensures values_differ { ValuesDiffer }
{}
