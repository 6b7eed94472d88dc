//! First faults.

ghost use Rattle.lf_typing.specs.FaultLaws.{ObjectFaultless, SynthesisFaultless, KindSynthesisFaultless, FamilyFaultless, KindFaultless, ClassFaultless, ValueFaultless, DeclarationFaultless, SignatureFaultless, SignatureFaultIsFirst};

/// Each judgement holds exactly where its first fault is none.
pub fn law_faultless()
    ensures object { ObjectFaultless }
    ensures synthesis { SynthesisFaultless }
    ensures kind_synthesis { KindSynthesisFaultless }
    ensures family { FamilyFaultless }
    ensures kind { KindFaultless }
    ensures class { ClassFaultless }
    ensures value { ValueFaultless }
    ensures declaration { DeclarationFaultless }
    ensures signature { SignatureFaultless }
    ensures first { SignatureFaultIsFirst }
{}
