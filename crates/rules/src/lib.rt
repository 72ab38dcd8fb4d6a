// What the head does with one slot and with the record of one place: the schedule, rounds, reports and alarms.
#![tactic(auto)]

pub mod alarm;
pub mod clamp;
pub mod grant;
pub mod job;
pub mod laws;
pub mod row;
pub mod settings;
pub mod settle;
pub mod slot;
