//! Typed maps carry typing.
ghost use Rattle.lf_meaning.specs.Judgements.{IsTyping};
ghost use Rattle.translation_meaning.specs.Translation.{translate_family, translate_object};
ghost use Rattle.translation_typing.specs.TypedTranslation.{IsTypedTranslation, translate_context};
ghost use Rattle.term_trees.specs.Readings.{read_context, read_family, read_map, read_object, read_signature};

use lf_terms::{Ctx, Fam, FlatSig, HeadMap, Obj};

/// Translation keeps typing (Rabe and Kohlhase 2013, section 4). The map is typed from one well-typed signature to another, and the
/// families that it gives as values are atomic below their binders, as those of accepted views and structures are.
pub fn law_translate(from: &FlatSig, to: &FlatSig, map: &HeadMap, ctx: &Ctx, obj: &Obj, fam: &Fam)
    // Then a typing judgement of the source is carried to one of the target.
    ensures { IsTypedTranslation (read_signature from.now) (read_signature to.now) (read_map map.now)
        → IsTyping (read_signature from.now) (read_context ctx.now) (read_object obj.now) (read_family fam.now)
        → IsTyping (read_signature to.now) (translate_context (read_map map.now) (read_context ctx.now))
        (translate_object (read_map map.now) (read_object obj.now)) (translate_family (read_map map.now) (read_family fam.now)) }
{}
