//! Worked examples: each function does nothing, and its contract is proved by computing.

ghost use Rattle.saved_log_laws.specs.Examples.{OnePut, PutAndDrop, WrittenPut, JunkIsLeft, AnyOtherByteIsOpen, NineBytesAreNoEdits, TenBytesWithOpenGate, CutFile, OtherHeading, NoGateBehindRecord, OtherKind, ReservedWord, NotUtf8, SameTextAgain, AbsentName, SecondGateIsDamaged};

/// Files with edits.
pub fn edit_examples()
    ensures put { OnePut }
    ensures drop { PutAndDrop }
    ensures written { WrittenPut }
    ensures behind { JunkIsLeft }
    ensures open { AnyOtherByteIsOpen }
    ensures short { NineBytesAreNoEdits }
{}

/// Damaged files.
pub fn damage_examples()
    ensures gate { TenBytesWithOpenGate }
    ensures cut { CutFile }
    ensures heading { OtherHeading }
    ensures behind { NoGateBehindRecord }
    ensures kind { OtherKind }
    ensures reserved { ReservedWord }
    ensures utf8 { NotUtf8 }
    ensures same { SameTextAgain }
    ensures absent { AbsentName }
    ensures second { SecondGateIsDamaged }
{}
