//! What an attempt goes on with.

use crate::sent::Sent;
use client_state::call::Stage;
use std::marker::Model;

/// The stage of an attempt, the message that it sends, if any, and the number that was used last. All memory that it needs
/// is taken, and nothing has changed yet.
#[derive(Drop)]
pub struct CallPlan {
    pub stage: Stage,
    pub sent: Sent,
    pub number: u64,
}

impl Model for CallPlan {
    ghost use Rattle.protocol.specs.Client.{Plan as PlanValue};

    ghost Value = { PlanValue };

    ghost view = { λ p. record { stage = p.stage; sent = p.sent; number = p.number } };
}
