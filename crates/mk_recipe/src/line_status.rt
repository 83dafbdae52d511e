//! How the lines of a recipe ended, and what the recipe came to.

/// How a line that was run ended.
#[derive(Clone, Copy)]
pub struct LineStatus {
    /// 0 to 255, or 256 where the line was stopped or not started.
    pub status: u32,
    /// The line says that its status doesn't matter.
    pub is_ignored: bool,
}

/// What a recipe came to.
#[derive(Clone, Copy)]
pub enum Outcome {
    Done,
    /// The status of the line that failed.
    Failed(u32),
}
