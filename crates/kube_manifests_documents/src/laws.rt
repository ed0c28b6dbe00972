//! Laws of definitions. Each is the contract of a function with an empty body.
ghost use Rattle.kube_manifests_documents.specs.Definitions.{versions_of};
ghost use Rattle.kube_manifests_documents.specs.DocumentVersions.{document_versions, from_each_item};
ghost use Rattle.kube_manifests_documents.specs.Versions.{Version};
ghost use Rattle.serde_json.specs.Data.{Data, Items};
ghost use Rattle.std.specs.Prelude.{◌≡◌, List, Ok};

/// If documents have no fault, their versions are exactly those written in them, one document after
/// another.
pub fn versions_are_those_of_each_document()
    ensures { (documents : Items) (versions : List (Version Data))
        → versions_of documents ≡ Ok versions → versions ≡ from_each_item document_versions documents }
{}
