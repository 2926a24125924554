//! Laws of what servers answer to orders and report of leases, in every lawful list of events from a new cell: restarts, stops in a step, losses, repeats, refused memory and rot.

ghost use Rattle.laws_versions.specs.AnsweredOrders.{RecordedOrdersAreRefused, ReportedLeasesWereGranted};

/// A Recorded answers an order that was sent to its server before and gives it that version; the server refuses that order, and each of the same or a lower number, from then on.
pub fn recorded_orders_are_refused()
    ensures { RecordedOrdersAreRefused }
{}

/// Each lease of which a Report has a line was granted to its sender: the Grant was sent before the Report.
pub fn reported_leases_were_granted()
    ensures { ReportedLeasesWereGranted }
{}
