//! A case that was worked out.

use crate::change::Change;
use crate::over::Over;
use crate::service::Service;
use survey_laws::Fault;

/// A case that was worked out over a network: its services, what the case changes in each of them, its faults, how many pairs of sites lose
/// each other, and whether it is told.
#[derive(Clone, Copy)]
pub struct WorkedCase<'a> {
    pub over: Over<'a>,
    pub services: &'a [Service],
    pub changes: &'a [Change],
    pub faults: &'a [Fault],
    pub lost: u64,
    pub told: bool,
}
