//! What a run came to.
ghost use Rattle.std.specs.Prelude.{◌≡◌, ◌≤◌, IsTrue};
ghost use Rattle.std.specs.List.{list_all};
ghost use Rattle.jb_closing.specs.Report.{ends_well};

use bd_places::End;

/// How each node of the graph ended, by its number, and the exit status of the run: 2 where a recipe couldn't be expanded
/// or the jobserver failed, else 1 where a target failed or couldn't be recorded, else 0.
#[derive(Debug, Drop)]
pub struct Report {
    pub ends: Vec<End>,
    pub status: u8,
    /// Of each node whether its recipe left all that it makes as it was, so that what stands on it isn't remade for it. Behind the last
    /// one there is none: an empty list has none at all.
    pub same: Vec<bool>,
}

fn ends_well(end: End) -> bool
    ensures { result ≡ ends_well end }
{
    matches!(end, End::UpToDate | End::Remade | End::Built)
}

fn all_end_well(ends: &[End]) -> bool
    ensures { result ≡ list_all ends_well ends.now }
{
    ends.iter().all(|end| ends_well(*end))
}

impl Report {
    /// The report of a run whose workers came to this status. A node that failed or was abandoned makes it at least 1.
    pub fn of(ends: Vec<End>, status: u8, same: Vec<bool>) -> Report
        requires { status ≤ 2 }
        ensures ends { result.ends ≡ ends }
        ensures same { result.same ≡ same }
        ensures least { status ≤ result.status }
        ensures status { result.status ≤ 2 }
        ensures well { result.status ≡ 0 → IsTrue (list_all ends_well result.ends.items) }
    {
        let status = if all_end_well(&ends) {
            status
        } else {
            status.max(1)
        };
        Report { ends, status, same }
    }
}
