//! The resources of an API server of Kubernetes 1.33.
ghost use Rattle.kube_manifests_resources.specs.Builtins.{builtins};
ghost use Rattle.kube_manifests_resources.specs.Resources.{builtin_view};
ghost use Rattle.std.specs.Prelude.{◌≡◌, map};

use crate::resources::{Builtin, GroupVersion, ResourceScope};

const SERVED_CORE: [GroupVersion<'static>; 1] = [GroupVersion {
    group: "",
    version: "v1",
}];

const SERVED_EVENTS: [GroupVersion<'static>; 2] = [
    GroupVersion {
        group: "",
        version: "v1",
    },
    GroupVersion {
        group: "events.k8s.io",
        version: "v1",
    },
];

const SERVED_ADMISSIONREGISTRATION_K8S_IO: [GroupVersion<'static>; 1] = [GroupVersion {
    group: "admissionregistration.k8s.io",
    version: "v1",
}];

const SERVED_APIEXTENSIONS_K8S_IO: [GroupVersion<'static>; 1] = [GroupVersion {
    group: "apiextensions.k8s.io",
    version: "v1",
}];

const SERVED_APIREGISTRATION_K8S_IO: [GroupVersion<'static>; 1] = [GroupVersion {
    group: "apiregistration.k8s.io",
    version: "v1",
}];

const SERVED_APPS: [GroupVersion<'static>; 1] = [GroupVersion {
    group: "apps",
    version: "v1",
}];

const SERVED_AUTHENTICATION_K8S_IO: [GroupVersion<'static>; 1] = [GroupVersion {
    group: "authentication.k8s.io",
    version: "v1",
}];

const SERVED_AUTHORIZATION_K8S_IO: [GroupVersion<'static>; 1] = [GroupVersion {
    group: "authorization.k8s.io",
    version: "v1",
}];

const SERVED_AUTOSCALING: [GroupVersion<'static>; 2] = [
    GroupVersion {
        group: "autoscaling",
        version: "v1",
    },
    GroupVersion {
        group: "autoscaling",
        version: "v2",
    },
];

const SERVED_BATCH: [GroupVersion<'static>; 1] = [GroupVersion {
    group: "batch",
    version: "v1",
}];

const SERVED_CERTIFICATES_K8S_IO: [GroupVersion<'static>; 1] = [GroupVersion {
    group: "certificates.k8s.io",
    version: "v1",
}];

const SERVED_COORDINATION_K8S_IO: [GroupVersion<'static>; 1] = [GroupVersion {
    group: "coordination.k8s.io",
    version: "v1",
}];

const SERVED_DISCOVERY_K8S_IO: [GroupVersion<'static>; 1] = [GroupVersion {
    group: "discovery.k8s.io",
    version: "v1",
}];

const SERVED_FLOWCONTROL_APISERVER_K8S_IO: [GroupVersion<'static>; 1] = [GroupVersion {
    group: "flowcontrol.apiserver.k8s.io",
    version: "v1",
}];

const SERVED_NETWORKING_K8S_IO: [GroupVersion<'static>; 1] = [GroupVersion {
    group: "networking.k8s.io",
    version: "v1",
}];

const SERVED_NODE_K8S_IO: [GroupVersion<'static>; 1] = [GroupVersion {
    group: "node.k8s.io",
    version: "v1",
}];

const SERVED_POLICY: [GroupVersion<'static>; 1] = [GroupVersion {
    group: "policy",
    version: "v1",
}];

const SERVED_RBAC_AUTHORIZATION_K8S_IO: [GroupVersion<'static>; 1] = [GroupVersion {
    group: "rbac.authorization.k8s.io",
    version: "v1",
}];

const SERVED_SCHEDULING_K8S_IO: [GroupVersion<'static>; 1] = [GroupVersion {
    group: "scheduling.k8s.io",
    version: "v1",
}];

const SERVED_STORAGE_K8S_IO: [GroupVersion<'static>; 1] = [GroupVersion {
    group: "storage.k8s.io",
    version: "v1",
}];

/// The resources that an API server of Kubernetes 1.33 serves unless it is told otherwise.
pub fn builtins() -> &'static [Builtin]
    ensures { map builtin_view result.now ≡ builtins }
{
    &ROWS
}

static ROWS: [Builtin; 60] = [
    Builtin {
        group: "",
        kind: "Binding",
        plural: "bindings",
        scope: ResourceScope::Namespaced,
        served: &SERVED_CORE,
        subresources: &[],
    },
    Builtin {
        group: "",
        kind: "ComponentStatus",
        plural: "componentstatuses",
        scope: ResourceScope::Cluster,
        served: &SERVED_CORE,
        subresources: &[],
    },
    Builtin {
        group: "",
        kind: "ConfigMap",
        plural: "configmaps",
        scope: ResourceScope::Namespaced,
        served: &SERVED_CORE,
        subresources: &[],
    },
    Builtin {
        group: "",
        kind: "Endpoints",
        plural: "endpoints",
        scope: ResourceScope::Namespaced,
        served: &SERVED_CORE,
        subresources: &[],
    },
    Builtin {
        group: "",
        kind: "Event",
        plural: "events",
        scope: ResourceScope::Namespaced,
        served: &SERVED_EVENTS,
        subresources: &[],
    },
    Builtin {
        group: "",
        kind: "LimitRange",
        plural: "limitranges",
        scope: ResourceScope::Namespaced,
        served: &SERVED_CORE,
        subresources: &[],
    },
    Builtin {
        group: "",
        kind: "Namespace",
        plural: "namespaces",
        scope: ResourceScope::Cluster,
        served: &SERVED_CORE,
        subresources: &["finalize", "status"],
    },
    Builtin {
        group: "",
        kind: "Node",
        plural: "nodes",
        scope: ResourceScope::Cluster,
        served: &SERVED_CORE,
        subresources: &["proxy", "status"],
    },
    Builtin {
        group: "",
        kind: "PersistentVolume",
        plural: "persistentvolumes",
        scope: ResourceScope::Cluster,
        served: &SERVED_CORE,
        subresources: &["status"],
    },
    Builtin {
        group: "",
        kind: "PersistentVolumeClaim",
        plural: "persistentvolumeclaims",
        scope: ResourceScope::Namespaced,
        served: &SERVED_CORE,
        subresources: &["status"],
    },
    Builtin {
        group: "",
        kind: "Pod",
        plural: "pods",
        scope: ResourceScope::Namespaced,
        served: &SERVED_CORE,
        subresources: &[
            "attach",
            "binding",
            "ephemeralcontainers",
            "eviction",
            "exec",
            "log",
            "portforward",
            "proxy",
            "resize",
            "status",
        ],
    },
    Builtin {
        group: "",
        kind: "PodTemplate",
        plural: "podtemplates",
        scope: ResourceScope::Namespaced,
        served: &SERVED_CORE,
        subresources: &[],
    },
    Builtin {
        group: "",
        kind: "ReplicationController",
        plural: "replicationcontrollers",
        scope: ResourceScope::Namespaced,
        served: &SERVED_CORE,
        subresources: &["scale", "status"],
    },
    Builtin {
        group: "",
        kind: "ResourceQuota",
        plural: "resourcequotas",
        scope: ResourceScope::Namespaced,
        served: &SERVED_CORE,
        subresources: &["status"],
    },
    Builtin {
        group: "",
        kind: "Secret",
        plural: "secrets",
        scope: ResourceScope::Namespaced,
        served: &SERVED_CORE,
        subresources: &[],
    },
    Builtin {
        group: "",
        kind: "Service",
        plural: "services",
        scope: ResourceScope::Namespaced,
        served: &SERVED_CORE,
        subresources: &["proxy", "status"],
    },
    Builtin {
        group: "",
        kind: "ServiceAccount",
        plural: "serviceaccounts",
        scope: ResourceScope::Namespaced,
        served: &SERVED_CORE,
        subresources: &["token"],
    },
    Builtin {
        group: "admissionregistration.k8s.io",
        kind: "MutatingWebhookConfiguration",
        plural: "mutatingwebhookconfigurations",
        scope: ResourceScope::Cluster,
        served: &SERVED_ADMISSIONREGISTRATION_K8S_IO,
        subresources: &[],
    },
    Builtin {
        group: "admissionregistration.k8s.io",
        kind: "ValidatingAdmissionPolicy",
        plural: "validatingadmissionpolicies",
        scope: ResourceScope::Cluster,
        served: &SERVED_ADMISSIONREGISTRATION_K8S_IO,
        subresources: &["status"],
    },
    Builtin {
        group: "admissionregistration.k8s.io",
        kind: "ValidatingAdmissionPolicyBinding",
        plural: "validatingadmissionpolicybindings",
        scope: ResourceScope::Cluster,
        served: &SERVED_ADMISSIONREGISTRATION_K8S_IO,
        subresources: &[],
    },
    Builtin {
        group: "admissionregistration.k8s.io",
        kind: "ValidatingWebhookConfiguration",
        plural: "validatingwebhookconfigurations",
        scope: ResourceScope::Cluster,
        served: &SERVED_ADMISSIONREGISTRATION_K8S_IO,
        subresources: &[],
    },
    Builtin {
        group: "apiextensions.k8s.io",
        kind: "CustomResourceDefinition",
        plural: "customresourcedefinitions",
        scope: ResourceScope::Cluster,
        served: &SERVED_APIEXTENSIONS_K8S_IO,
        subresources: &["status"],
    },
    Builtin {
        group: "apiregistration.k8s.io",
        kind: "APIService",
        plural: "apiservices",
        scope: ResourceScope::Cluster,
        served: &SERVED_APIREGISTRATION_K8S_IO,
        subresources: &["status"],
    },
    Builtin {
        group: "apps",
        kind: "ControllerRevision",
        plural: "controllerrevisions",
        scope: ResourceScope::Namespaced,
        served: &SERVED_APPS,
        subresources: &[],
    },
    Builtin {
        group: "apps",
        kind: "DaemonSet",
        plural: "daemonsets",
        scope: ResourceScope::Namespaced,
        served: &SERVED_APPS,
        subresources: &["status"],
    },
    Builtin {
        group: "apps",
        kind: "Deployment",
        plural: "deployments",
        scope: ResourceScope::Namespaced,
        served: &SERVED_APPS,
        subresources: &["scale", "status"],
    },
    Builtin {
        group: "apps",
        kind: "ReplicaSet",
        plural: "replicasets",
        scope: ResourceScope::Namespaced,
        served: &SERVED_APPS,
        subresources: &["scale", "status"],
    },
    Builtin {
        group: "apps",
        kind: "StatefulSet",
        plural: "statefulsets",
        scope: ResourceScope::Namespaced,
        served: &SERVED_APPS,
        subresources: &["scale", "status"],
    },
    Builtin {
        group: "authentication.k8s.io",
        kind: "SelfSubjectReview",
        plural: "selfsubjectreviews",
        scope: ResourceScope::Cluster,
        served: &SERVED_AUTHENTICATION_K8S_IO,
        subresources: &[],
    },
    Builtin {
        group: "authentication.k8s.io",
        kind: "TokenReview",
        plural: "tokenreviews",
        scope: ResourceScope::Cluster,
        served: &SERVED_AUTHENTICATION_K8S_IO,
        subresources: &[],
    },
    Builtin {
        group: "authorization.k8s.io",
        kind: "LocalSubjectAccessReview",
        plural: "localsubjectaccessreviews",
        scope: ResourceScope::Namespaced,
        served: &SERVED_AUTHORIZATION_K8S_IO,
        subresources: &[],
    },
    Builtin {
        group: "authorization.k8s.io",
        kind: "SelfSubjectAccessReview",
        plural: "selfsubjectaccessreviews",
        scope: ResourceScope::Cluster,
        served: &SERVED_AUTHORIZATION_K8S_IO,
        subresources: &[],
    },
    Builtin {
        group: "authorization.k8s.io",
        kind: "SelfSubjectRulesReview",
        plural: "selfsubjectrulesreviews",
        scope: ResourceScope::Cluster,
        served: &SERVED_AUTHORIZATION_K8S_IO,
        subresources: &[],
    },
    Builtin {
        group: "authorization.k8s.io",
        kind: "SubjectAccessReview",
        plural: "subjectaccessreviews",
        scope: ResourceScope::Cluster,
        served: &SERVED_AUTHORIZATION_K8S_IO,
        subresources: &[],
    },
    Builtin {
        group: "autoscaling",
        kind: "HorizontalPodAutoscaler",
        plural: "horizontalpodautoscalers",
        scope: ResourceScope::Namespaced,
        served: &SERVED_AUTOSCALING,
        subresources: &["status"],
    },
    Builtin {
        group: "batch",
        kind: "CronJob",
        plural: "cronjobs",
        scope: ResourceScope::Namespaced,
        served: &SERVED_BATCH,
        subresources: &["status"],
    },
    Builtin {
        group: "batch",
        kind: "Job",
        plural: "jobs",
        scope: ResourceScope::Namespaced,
        served: &SERVED_BATCH,
        subresources: &["status"],
    },
    Builtin {
        group: "certificates.k8s.io",
        kind: "CertificateSigningRequest",
        plural: "certificatesigningrequests",
        scope: ResourceScope::Cluster,
        served: &SERVED_CERTIFICATES_K8S_IO,
        subresources: &["approval", "status"],
    },
    Builtin {
        group: "coordination.k8s.io",
        kind: "Lease",
        plural: "leases",
        scope: ResourceScope::Namespaced,
        served: &SERVED_COORDINATION_K8S_IO,
        subresources: &[],
    },
    Builtin {
        group: "discovery.k8s.io",
        kind: "EndpointSlice",
        plural: "endpointslices",
        scope: ResourceScope::Namespaced,
        served: &SERVED_DISCOVERY_K8S_IO,
        subresources: &[],
    },
    Builtin {
        group: "events.k8s.io",
        kind: "Event",
        plural: "events",
        scope: ResourceScope::Namespaced,
        served: &SERVED_EVENTS,
        subresources: &[],
    },
    Builtin {
        group: "flowcontrol.apiserver.k8s.io",
        kind: "FlowSchema",
        plural: "flowschemas",
        scope: ResourceScope::Cluster,
        served: &SERVED_FLOWCONTROL_APISERVER_K8S_IO,
        subresources: &["status"],
    },
    Builtin {
        group: "flowcontrol.apiserver.k8s.io",
        kind: "PriorityLevelConfiguration",
        plural: "prioritylevelconfigurations",
        scope: ResourceScope::Cluster,
        served: &SERVED_FLOWCONTROL_APISERVER_K8S_IO,
        subresources: &["status"],
    },
    Builtin {
        group: "networking.k8s.io",
        kind: "Ingress",
        plural: "ingresses",
        scope: ResourceScope::Namespaced,
        served: &SERVED_NETWORKING_K8S_IO,
        subresources: &["status"],
    },
    Builtin {
        group: "networking.k8s.io",
        kind: "IngressClass",
        plural: "ingressclasses",
        scope: ResourceScope::Cluster,
        served: &SERVED_NETWORKING_K8S_IO,
        subresources: &[],
    },
    Builtin {
        group: "networking.k8s.io",
        kind: "IPAddress",
        plural: "ipaddresses",
        scope: ResourceScope::Cluster,
        served: &SERVED_NETWORKING_K8S_IO,
        subresources: &[],
    },
    Builtin {
        group: "networking.k8s.io",
        kind: "NetworkPolicy",
        plural: "networkpolicies",
        scope: ResourceScope::Namespaced,
        served: &SERVED_NETWORKING_K8S_IO,
        subresources: &[],
    },
    Builtin {
        group: "networking.k8s.io",
        kind: "ServiceCIDR",
        plural: "servicecidrs",
        scope: ResourceScope::Cluster,
        served: &SERVED_NETWORKING_K8S_IO,
        subresources: &["status"],
    },
    Builtin {
        group: "node.k8s.io",
        kind: "RuntimeClass",
        plural: "runtimeclasses",
        scope: ResourceScope::Cluster,
        served: &SERVED_NODE_K8S_IO,
        subresources: &[],
    },
    Builtin {
        group: "policy",
        kind: "PodDisruptionBudget",
        plural: "poddisruptionbudgets",
        scope: ResourceScope::Namespaced,
        served: &SERVED_POLICY,
        subresources: &["status"],
    },
    Builtin {
        group: "rbac.authorization.k8s.io",
        kind: "ClusterRole",
        plural: "clusterroles",
        scope: ResourceScope::Cluster,
        served: &SERVED_RBAC_AUTHORIZATION_K8S_IO,
        subresources: &[],
    },
    Builtin {
        group: "rbac.authorization.k8s.io",
        kind: "ClusterRoleBinding",
        plural: "clusterrolebindings",
        scope: ResourceScope::Cluster,
        served: &SERVED_RBAC_AUTHORIZATION_K8S_IO,
        subresources: &[],
    },
    Builtin {
        group: "rbac.authorization.k8s.io",
        kind: "Role",
        plural: "roles",
        scope: ResourceScope::Namespaced,
        served: &SERVED_RBAC_AUTHORIZATION_K8S_IO,
        subresources: &[],
    },
    Builtin {
        group: "rbac.authorization.k8s.io",
        kind: "RoleBinding",
        plural: "rolebindings",
        scope: ResourceScope::Namespaced,
        served: &SERVED_RBAC_AUTHORIZATION_K8S_IO,
        subresources: &[],
    },
    Builtin {
        group: "scheduling.k8s.io",
        kind: "PriorityClass",
        plural: "priorityclasses",
        scope: ResourceScope::Cluster,
        served: &SERVED_SCHEDULING_K8S_IO,
        subresources: &[],
    },
    Builtin {
        group: "storage.k8s.io",
        kind: "CSIDriver",
        plural: "csidrivers",
        scope: ResourceScope::Cluster,
        served: &SERVED_STORAGE_K8S_IO,
        subresources: &[],
    },
    Builtin {
        group: "storage.k8s.io",
        kind: "CSINode",
        plural: "csinodes",
        scope: ResourceScope::Cluster,
        served: &SERVED_STORAGE_K8S_IO,
        subresources: &[],
    },
    Builtin {
        group: "storage.k8s.io",
        kind: "CSIStorageCapacity",
        plural: "csistoragecapacities",
        scope: ResourceScope::Namespaced,
        served: &SERVED_STORAGE_K8S_IO,
        subresources: &[],
    },
    Builtin {
        group: "storage.k8s.io",
        kind: "StorageClass",
        plural: "storageclasses",
        scope: ResourceScope::Cluster,
        served: &SERVED_STORAGE_K8S_IO,
        subresources: &[],
    },
    Builtin {
        group: "storage.k8s.io",
        kind: "VolumeAttachment",
        plural: "volumeattachments",
        scope: ResourceScope::Cluster,
        served: &SERVED_STORAGE_K8S_IO,
        subresources: &["status"],
    },
];
