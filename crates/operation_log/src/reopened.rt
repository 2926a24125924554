//! Logs that can be opened again where they stand.

ghost use Rattle.std.specs.Prelude.{◌≡◌, ◌<◌, [], true, IsErrOf, OnErr, OnOk};
ghost use Rattle.operation_log.specs.Logs.{IsDecided};
ghost use Rattle.operation_log.specs.declared.fault.OperationLogFault.TheVariants.{Device};

use crate::fault::OperationLogFault;
use crate::log::OperationLog;
use crate::memory::MemoryLog;

/// A log that begins again in its place.
pub trait ReopenedLog: OperationLog {
    /// The log begins again: which of the changes under way were made is decided, and the log is found. After an error nothing is decided.
    fn reopen(&mut self) -> Result<(), OperationLogFault>
        ensures ok { OnOk result (IsDecided (Self.disk self.old) (Self.under_way self.old) (Self.disk self.new)) }
        ensures done { OnOk result (Self.under_way self.new ≡ []) }
        ensures err { OnErr result (Self.disk self.new ≡ Self.disk self.old) }
        ensures undecided { OnErr result (Self.under_way self.new ≡ Self.under_way self.old) }
        ensures size { Self.log_bytes self.new ≡ Self.log_bytes self.old }
        ensures open { OnOk result (Self.is_open self.new ≡ true) }
        // Its disk counts anew once it begins again.
        ensures cause { IsErrOf result Device → 0 < Self.failed self.new };
}

/// A log in memory stands as it is.
impl ReopenedLog for MemoryLog {
    fn reopen(&mut self) -> Result<(), OperationLogFault> {
        Ok(())
    }
}
