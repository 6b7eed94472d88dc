//! Long forms of values, and values that agree.

ghost use Rattle.eta_laws.specs.LongValueLaws.{LongValueFits, LongValueIsLong, AgreeIsEqualOrLong, AgreeAtAtoms, AgreeAtType, ConstantAgrees, ConstantsAgree};

/// The long form of a value fits what the value fits, and is its own long form.
pub fn law_long_values()
    ensures fits { LongValueFits }
    ensures again { LongValueIsLong }
{}

/// Values agree where they are equal or one is the other's long form: at classes without a Π at their front where they are equal, and
/// at a Π a constant with one object alone.
pub fn law_agreement()
    ensures means { AgreeIsEqualOrLong }
    ensures atoms { AgreeAtAtoms }
    ensures types { AgreeAtType }
    ensures constant { ConstantAgrees }
    ensures constants { ConstantsAgree }
{}
