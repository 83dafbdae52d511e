//! What holds of the definitions alone. The function does nothing: what it ensures is the law.
ghost use Rattle.jb_recipe.specs.FilesSurvive.{FilesSurvive};

/// A 'done' behind the sync of each file that its recipe made, as `EndNote::last_record` gives it, is true of these files wherever a power
/// cut falls, unless somebody wrote them since. The premises: a recipe that has ended writes no more, and the file system keeps what was
/// synced.
pub fn files_survive()
    ensures { FilesSurvive }
{}
