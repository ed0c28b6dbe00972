//! Laws of the review. Each is the contract of a function with an empty body.
ghost use Rattle.std.specs.List.{list_any};
ghost use Rattle.std.specs.Prelude.{◌≡◌, ◌≤◌, ℕ, Contains, List, Option, Some, false, length, true};
ghost use Rattle.kube_manifests_review.specs.Keywords.{rule_fields, schema_fields};
ghost use Rattle.kube_manifests_review.specs.Locations.{SchemaLocation, locations_of};
ghost use Rattle.kube_manifests_review.specs.Visited.{IsVisited, KeysOnce, pointer_behind};
ghost use Rattle.kube_manifests_texts.specs.Spelling.{one_letter_off};
ghost use Rattle.kube_schema.specs.RulesRaw.{raw_steps};
ghost use Rattle.kube_schema.specs.Step.{Step};
ghost use Rattle.kube_schema.specs.Visit.{Root, Visit, goes, root_visit};
ghost use Rattle.kube_schema.specs.Walk.{leads};
ghost use Rattle.serde_json.specs.Data.{Data};

/// No field of a schema is one letter off another, and no field of a rule is. All are ASCII, so
/// their bytes are their characters.
pub fn no_keyword_is_one_letter_off()
    ensures keywords { list_any (λ k. list_any (one_letter_off k) schema_fields) schema_fields ≡ false }
    ensures fields { list_any (λ k. list_any (one_letter_off k) rule_fields) rule_fields ≡ false }
{}

/// Whatever a walk over an object visits is read: if steps lead from the root of a schema and some
/// value to a schema within it, at most 64 of them, that schema is read, with the pointer of the
/// steps.
pub fn what_a_walk_visits_is_read()
    ensures { (schema value : Data) (old : Option Data) (root : Option Root) (pointer : List ℕ)
        (steps : List Step) (visit : Visit Data) → length steps ≤ 64
        → leads (goes raw_steps) steps (root_visit schema value old root) ≡ Some visit
        → Contains (locations_of 65 true pointer schema)
        (record { pointer = pointer_behind pointer steps; schema = visit.node; is_read = true }) }
{}

/// Whatever is read is visited by the walk over some object, at the pointer of its steps.
pub fn what_is_read_is_visited()
    ensures { (schema : Data) → KeysOnce schema → (pointer : List ℕ) (location : SchemaLocation)
        → Contains (locations_of 65 true pointer schema) location → location.is_read ≡ true
        → IsVisited 64 pointer schema location }
{}
