//! Which types may cross threads: these functions are proved, and nothing is run.

use lf_terms::{Arc, Class, Ctx, Fam, FlatSig, HeadMap, Kind, Obj, Spine, Value};
use mmt_interface::{Refusal, StructFace, Structs, ViewFace};

fn crosses<T: Send + Sync>(_value: &T) {}

fn objects_cross(object: &Obj) {
    crosses(object);
}

fn spines_cross(spine: &Spine) {
    crosses(spine);
}

fn families_cross(family: &Fam) {
    crosses(family);
}

fn kinds_cross(kind: &Kind) {
    crosses(kind);
}

fn classes_cross(class: &Class) {
    crosses(class);
}

fn values_cross(value: &Value) {
    crosses(value);
}

fn contexts_cross(context: &Ctx) {
    crosses(context);
}

fn signatures_cross(signature: &FlatSig) {
    crosses(signature);
}

fn maps_cross(map: &HeadMap) {
    crosses(map);
}

fn shared_signatures_cross(signature: &Arc<FlatSig>) {
    crosses(signature);
}

fn shared_values_cross<X: Drop + Send + Sync>(shared: &Arc<X>) {
    crosses(shared);
}

struct Held {
    signature: FlatSig,
}

fn held_signatures_cross(held: &Held) {
    crosses(held);
}

fn structures_cross(face: &StructFace) {
    crosses(face);
}

fn rows_of_structures_cross(faces: &Structs) {
    crosses(faces);
}

fn views_cross(face: &ViewFace) {
    crosses(face);
}

fn refusals_cross(refusal: &Refusal) {
    crosses(refusal);
}
