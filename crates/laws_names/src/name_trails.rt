//! Laws of the machine's actions along the records that a step of the master logs.

ghost use Rattle.laws_names.specs.NameTrails.{RestartsGoByRecords, StepsGoByRecords};

/// A step of the master, record by record: the machine takes each record's action, where a Name that may take effect, and a Look, is of its client's open call.
pub fn steps_go_by_records()
    ensures { StepsGoByRecords }
{}

/// At a restart the machine takes no action.
pub fn restarts_go_by_records()
    ensures { RestartsGoByRecords }
{}
