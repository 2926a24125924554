//! The order of a clone.

ghost use Rattle.std.specs.Prelude.{◌≡◌};
ghost use Rattle.rereplicate.specs.Clones.{better, order_of};

use gfs_types::ids::{Handle, ServerId, Version};
use std::marker::Model;

/// The target gets a replica of this version of a chunk from the source.
#[derive(Clone, Copy, Debug, PartialEq, Eq)]
pub struct CloneOrder {
    pub handle: Handle,
    pub version: Version,
    pub source: ServerId,
    pub target: ServerId,
}

// A clone that could be ordered, and how many replicas its chunk lacks.
#[derive(Drop)]
pub(crate) struct Offer {
    pub(crate) order: CloneOrder,
    pub(crate) missing: u64,
}

impl Model for Offer {
    ghost use Rattle.rereplicate.specs.Clones.{Offer as OfferValue};

    ghost Value = { OfferValue };

    ghost view = { λ o. record {
      handle = o.order.handle.0;
      version = o.order.version.0;
      source = o.order.source.0;
      target = o.order.target.0;
      missing = o.missing;
    } };
}

impl Offer {
    pub(crate) fn into_order(self) -> CloneOrder
        ensures { result ≡ order_of self }
    {
        self.order
    }
}

// That of the chunk that lacks more replicas; the first where both lack as many.
pub(crate) fn better(first: Option<Offer>, other: Option<Offer>) -> Option<Offer>
    ensures { result ≡ better first other }
{
    let Some(one) = first else {
        return other;
    };
    let Some(two) = other else {
        return Some(one);
    };
    if one.missing < two.missing {
        Some(two)
    } else {
        Some(one)
    }
}
