//! Laws of sets of definitions. Each is the contract of a function with an empty body.
ghost use Rattle.kube_manifests.specs.declared.judgement.Judgement.TheVariants.{Judged};
ghost use Rattle.kube_manifests.specs.Laws.{FindsNothing, IsOwn};
ghost use Rattle.kube_manifests.specs.Sets.{IsJudgement};
ghost use Rattle.kube_manifests.specs.Versions.{chosen_version};
ghost use Rattle.kube_manifests_documents.specs.Definitions.{versions_of};
ghost use Rattle.kube_manifests_documents.specs.Versions.{Version};
ghost use Rattle.serde_json.specs.Data.{Data};
ghost use Rattle.serde_json.specs.View.{items_of};
ghost use Rattle.std.specs.Prelude.{◌≡◌, ◌++◌, List, Ok, Option};

/// An object is judged without errors only if a version is found for it and that version's schema
/// finds no error.
pub fn no_errors_only_where_a_schema_finds_none()
    ensures { (versions : List (Version Data)) (object : Data) (old : Option Data)
        → IsJudgement versions object old (Judged (Ok tt))
        → (v : Version Data) × (chosen_version versions object ≡ Ok v) × FindsNothing v object old }
{}

/// The version found for an object is in the set, is served, and has the object's apiVersion and
/// kind.
pub fn the_version_found_is_the_objects_own()
    ensures { (versions : List (Version Data)) (object : Data) (v : Version Data)
        → chosen_version versions object ≡ Ok v → IsOwn versions object v }
{}

/// The order of two groups of documents doesn't change which version judges an object.
pub fn documents_in_either_order()
    ensures { (ds es : List Data) (versions others : List (Version Data))
        → versions_of (items_of (ds ++ es)) ≡ Ok versions → versions_of (items_of (es ++ ds)) ≡ Ok others
        → (value : Data) → chosen_version versions value ≡ chosen_version others value }
{}
