//! Which chunks may lack replicas, as far as it was found at earlier steps (section 4.3).

ghost use Rattle.std.specs.Prelude.{◌≡◌, true, IfSome};
ghost use Rattle.std.specs.Option.{option_copied};
ghost use Rattle.protocol.specs.Master.{is_present};
ghost use Rattle.master_plan.specs.Plans.{known};
ghost use Rattle.master_plan.specs.Watched.{AllStay, IsWhole};

use crate::plan::Plan;
use gfs_types::ids::ServerId;
use rereplicate::whole::Doubted;
use std::alloc::Allocator;

impl<A: Allocator + Clone> Plan<A> {
    /// The chunks that may lack replicas, where that is known: no other does.
    pub fn doubted(&self) -> Option<&Doubted>
        ensures { IfSome (option_copied result) (IsWhole (known self.now)) }
    {
        match self.whole_until {
            Some(until) if self.clock <= until => Some(&self.doubted),
            _ => None,
        }
    }

    /// It was found that no chunk lacks replicas but some of these. That is known for as long as the servers that are present stay so.
    pub fn note_doubted(&mut self, doubted: Doubted)
        requires { IsWhole (known self.old) doubted }
        ensures { self.new ≡ self.old }
    {
        let until = self.last_all_present();
        if self.all_stay(until) {
            self.whole_until = Some(until);
            self.doubted = doubted;
        } else {
            self.whole_until = None;
        }
    }

    // Whether each server that is present is so at a moment if it doesn't report.
    #[tactic(auto, using(rereplicate::proofs::Wholeness::one_more))]
    fn all_stay(&self, moment: u64) -> bool
        ensures { result ≡ true → AllStay (known self.now) moment }
    {
        for index in 0..self.server_count {
            if !self.stays(ServerId(index + 1), moment) {
                return false;
            }
        }
        true
    }

    fn stays(&self, server: ServerId, moment: u64) -> bool
        ensures { result ≡ true → is_present (known self.now) server.0 ≡ true → is_present (record (known self.now) { now = moment }) server.0 ≡ true }
    {
        !self.is_present(server) || self.is_present_at(server, moment)
    }

    fn is_present_at(&self, server: ServerId, moment: u64) -> bool
        ensures { result ≡ is_present (record (known self.now) { now = moment }) server.0 }
    {
        let last = match self.reported.get(u64::from(server.0)) {
            Some(reported) => *reported,
            None => 0,
        };
        moment.saturating_sub(last) < self.config.lease_ms
    }

    // The last moment up to which all servers that are present stay so if none reports.
    fn last_all_present(&self) -> u64 {
        let mut until = u64::MAX;
        for index in 0..self.server_count {
            until = until.min(self.lapse(ServerId(index + 1)));
        }
        until
    }

    // The last moment at which a server that is present is so if it doesn't report; no bound where it isn't present.
    fn lapse(&self, server: ServerId) -> u64 {
        match self.reported.get(u64::from(server.0)) {
            Some(last) if self.is_present(server) => {
                last.saturating_add(self.config.lease_ms).saturating_sub(1)
            }
            _ => u64::MAX,
        }
    }
}
