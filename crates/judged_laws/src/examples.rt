//! Worked cases: each function does nothing, and its contract is proved by computing.

ghost use Rattle.judged_laws.specs.Examples.{NaturalNumbers, MisspelledName, Monoid, AssignedStructure, Ring, CarriedJudgement, ChangedPrefix, Cycle, AFolder, MisspelledInFolder, Generator, GeneratorWithWorkers, ImagesAreCounted};

/// Whole scripts.
pub fn scripts()
    ensures natural_numbers { NaturalNumbers }
    ensures misspelled_name { MisspelledName }
    ensures monoid { Monoid }
    ensures assigned_structure { AssignedStructure }
    ensures ring { Ring }
{}

/// Views and carried judgements, and a cycle.
pub fn views()
    ensures carried_judgement { CarriedJudgement }
    ensures changed_prefix { ChangedPrefix }
    ensures cycle { Cycle }
{}

/// Checked folders.
pub fn folders()
    ensures a_folder { AFolder }
    ensures misspelled_in_folder { MisspelledInFolder }
{}

/// The generator: five modules and three edits; and what it counts of a view.
pub fn generator()
    ensures generator { Generator }
    ensures generator_with_workers { GeneratorWithWorkers }
    ensures images_are_counted { ImagesAreCounted }
{}
