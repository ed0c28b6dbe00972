//! The functions of Kubernetes' IP address and CIDR libraries.
ghost use Rattle.std.specs.Prelude.{◌≡◌, IfOk, option_map};
ghost use Rattle.cel_value.specs.View.{view};
ghost use Rattle.cel_semantics.specs.Outcome.{outcome_view};
ghost use Rattle.kube_functions.specs.Net as spec;

use cel_semantics::operators::{Answer, no_such_overload};
use cel_value::{Refused, Value};
use kube_functions_types::cidr::{
    cidr, contains_cidr, contains_ip, is_cidr, is_cidr_v4, is_cidr_v6, masked, prefix_length,
    written_ip,
};
use kube_functions_types::ip::{
    family, ip, is_canonical, is_global_unicast, is_ip, is_ipv4, is_ipv6, is_link_local_multicast,
    is_link_local_unicast, is_loopback, is_unspecified,
};
use std::alloc::Global;

/// A function of the IP address library or the CIDR library.
#[derive(Clone, Copy)]
pub(crate) enum NetFunction {
    /// `ip` of a string.
    Ip,
    IsIp,
    IsIpv4,
    IsIpv6,
    IsCanonical,
    Family,
    IsGlobalUnicast,
    IsLinkLocalMulticast,
    IsLinkLocalUnicast,
    IsLoopback,
    IsUnspecified,
    Cidr,
    IsCidr,
    IsCidrV4,
    IsCidrV6,
    ContainsCidr,
    ContainsIp,
    /// `ip` of a CIDR.
    IpOfCidr,
    Masked,
    PrefixLength,
}

impl NetFunction {
    /// Returns the answer to a call of the function. The operands are the receiver, if
    /// there is one, followed by the arguments. `name` is the function's name in errors.
    ///
    /// # Errors
    /// [`Refused::Memory`] if memory is refused.
    pub(crate) fn answer(
        self,
        alloc: Global,
        name: &str,
        first: Option<&Value>,
        second: Option<&Value>,
    ) -> Result<Answer, Refused>
        ensures value { IfOk result (λ r. outcome_view r ≡ spec.answer self name.now
            (option_map (λ v. view v.now) first.entry) (option_map (λ v. view v.now) second.entry)) }
    {
        match (self, first, second) {
            (Self::Ip, Some(value), _) => ip(alloc, value),
            (Self::IsIp, Some(value), _) => is_ip(alloc, value),
            (Self::IsIpv4, Some(value), _) => is_ipv4(alloc, value),
            (Self::IsIpv6, Some(value), _) => is_ipv6(alloc, value),
            (Self::IsCanonical, Some(value), _) => is_canonical(alloc, value),
            (Self::Family, Some(value), _) => family(alloc, value),
            (Self::IsGlobalUnicast, Some(value), _) => is_global_unicast(alloc, value),
            (Self::IsLinkLocalMulticast, Some(value), _) => is_link_local_multicast(alloc, value),
            (Self::IsLinkLocalUnicast, Some(value), _) => is_link_local_unicast(alloc, value),
            (Self::IsLoopback, Some(value), _) => is_loopback(alloc, value),
            (Self::IsUnspecified, Some(value), _) => is_unspecified(alloc, value),
            (Self::Cidr, Some(value), _) => cidr(alloc, value),
            (Self::IsCidr, Some(value), _) => is_cidr(alloc, value),
            (Self::IsCidrV4, Some(value), _) => is_cidr_v4(alloc, value),
            (Self::IsCidrV6, Some(value), _) => is_cidr_v6(alloc, value),
            (Self::ContainsCidr, Some(value), Some(other)) => contains_cidr(alloc, value, other),
            (Self::ContainsIp, Some(value), Some(other)) => contains_ip(alloc, value, other),
            (Self::IpOfCidr, Some(value), _) => written_ip(alloc, value),
            (Self::Masked, Some(value), _) => masked(alloc, value),
            (Self::PrefixLength, Some(value), _) => prefix_length(alloc, value),
            (_, None, _) | (_, _, None) => Ok(Err(no_such_overload(alloc, name)?)),
        }
    }
}
