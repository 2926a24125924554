//! Tests of the store of replicas and of the operation log: stops at each moment, and faults; and of nodes over disks.
#![tactic(auto)]

#[cfg(test)]
mod changes;
#[cfg(test)]
mod chunk_calls;
#[cfg(test)]
mod chunk_faults;
#[cfg(test)]
mod chunk_stops;
#[cfg(test)]
mod disk_stops;
#[cfg(test)]
mod log_bytes;
#[cfg(test)]
mod log_calls;
#[cfg(test)]
mod log_faults;
#[cfg(test)]
mod log_stops;
#[cfg(test)]
mod old_logs;
#[cfg(test)]
mod opened;
#[cfg(test)]
mod opened_server;
#[cfg(test)]
mod places;
#[cfg(test)]
mod plain_store;
#[cfg(test)]
mod plan;
#[cfg(test)]
mod refusals;
#[cfg(test)]
mod refused;
#[cfg(test)]
mod restarts;
#[cfg(test)]
mod same;
#[cfg(test)]
mod stopped_log;
#[cfg(test)]
mod stopped_store;
