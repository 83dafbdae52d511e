//! The place of a line.
use crate::file_name::FileName;
use mk_profile::Profile;
use std::alloc::Global;

/// Where a line stands, in which language it is read, and what allocates what is made of it.
#[derive(Clone, Copy)]
pub struct LinePlace<'a> {
    pub alloc: Global,
    pub profile: Profile,
    pub file: &'a FileName,
    pub number: usize,
}
