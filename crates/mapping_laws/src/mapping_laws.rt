//! What is translated whole.

ghost use Rattle.mapping_laws.specs.MappedWhole.{NamesHaveImages, ObjectsAreMapped, FamiliesAreMapped, ClassesAreMapped, ValuesAreMapped, MapsAreMapped};
ghost use Rattle.mapping_laws.specs.FollowedLinks.{StructuresAreFollowed, WordsAreFollowed};
ghost use Rattle.mapping_laws.specs.NextImages.{NextIsMapped, NextStandsBefore, DomainsStandBefore, CoveringsHaveNames};

/// A map that has the names of a signature has an image for each constant in what holds only constants of it.
pub fn law_mapped()
    ensures names { NamesHaveImages }
    ensures object { ObjectsAreMapped }
    ensures family { FamiliesAreMapped }
    ensures class { ClassesAreMapped }
    ensures value { ValuesAreMapped }
    ensures map { MapsAreMapped }
{}

/// Each link of a row of words or structures has images for all that the links before it bring.
pub fn law_followed()
    ensures structures { StructuresAreFollowed }
    ensures words { WordsAreFollowed }
{}

/// While the map of a link is made, it has images for all that the next constant of the domain holds, and none for that constant.
pub fn law_next_images()
    ensures next { NextIsMapped }
    ensures on { NextStandsBefore }
    ensures domain { DomainsStandBefore }
    ensures coverings { CoveringsHaveNames }
{}
