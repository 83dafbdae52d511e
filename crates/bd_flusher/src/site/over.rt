//! A site, whatever the type of its store.

use crate::site::records::Records;
use st_state::State;

/// A store with the records that it was told since it was opened, and the batch that it is to be told next.
#[derive(Drop)]
pub(crate) struct SiteOver<S> {
    pub(crate) store: S,
    pub(crate) opening: State,
    pub(crate) records: Records,
    /// The length of the open side when the site was made, or when it was last compacted.
    pub(crate) size: usize,
}
