//! What there is to say of a target that isn't done.

use crate::Stopped;
use mk_depfiles::Refusal;
use mk_recipe::ReportFault;
use st_records::{MAX_HIDDEN_NAMES, MAX_NAME_BYTES, MAX_RECORD_BYTES};
use std::io;
use thiserror::Error;

/// Why a target isn't done though its recipe passed, with the status 256; or what became of one whose recipe failed.
#[derive(Clone, Copy, Debug, Error)]
pub enum NotDone {
    /// One of an earlier run, which would be taken for this one's.
    #[error("its old report cannot be removed: {0}")]
    NotRemoved(io::Error),
    #[error("its report cannot be read: {0}")]
    Unread(io::Error),
    #[error("its report is not text")]
    NotText,
    #[error("its report has a name of more than {most} bytes", most = MAX_NAME_BYTES)]
    LongName,
    #[error("its report has more than {most} names", most = MAX_HIDDEN_NAMES)]
    ManyNames,
    /// What a compiler wrote in place of the report.
    #[error("its depfile, {0}")]
    BadDepfile(Refusal),
    /// With the names of its report.
    #[error("its record has more than {most} bytes", most = MAX_RECORD_BYTES)]
    LongRecord,
    #[error("its file cannot be put on the disk: {0}")]
    NotSynced(io::Error),
    /// Its recipe failed and had changed its file.
    #[error("its file was removed")]
    Removed,
    /// A line of its recipe has no status.
    #[error("{0}")]
    Stopped(Stopped),
    #[error("{0}; its file was removed")]
    StoppedAndRemoved(Stopped),
}

impl NotDone {
    /// What became of a target whose recipe failed: why a line of it has no status, if so, and whether its file was removed.
    pub(crate) fn of_failed(stopped: Option<Stopped>, removed: bool) -> Option<NotDone> {
        match stopped {
            Some(stopped) if removed => Some(NotDone::StoppedAndRemoved(stopped)),
            Some(stopped) => Some(NotDone::Stopped(stopped)),
            None if removed => Some(NotDone::Removed),
            None => None,
        }
    }

    /// What is wrong with a report; None where memory was refused.
    pub(crate) fn of_report(fault: ReportFault) -> Option<NotDone> {
        match fault {
            ReportFault::OutOfMemory => None,
            ReportFault::NotText => Some(NotDone::NotText),
            ReportFault::TooLong => Some(NotDone::LongName),
            ReportFault::TooMany => Some(NotDone::ManyNames),
        }
    }
}
