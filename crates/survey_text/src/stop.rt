//! Why a survey ends before its end.
use net_base::{Failed, NoMemory};

/// What ended a survey.
#[derive(Clone, Copy, Debug, PartialEq, Eq)]
pub enum SurveyStop {
    /// The sink takes no more.
    Failed,
    NoMemory,
}

impl From<Failed> for SurveyStop {
    fn from(_: Failed) -> SurveyStop {
        SurveyStop::Failed
    }
}

impl From<NoMemory> for SurveyStop {
    fn from(_: NoMemory) -> SurveyStop {
        SurveyStop::NoMemory
    }
}
