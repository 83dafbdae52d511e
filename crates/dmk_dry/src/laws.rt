//! What holds of the definitions alone. The functions do nothing: what they ensure is the law.
ghost use Rattle.std.specs.Prelude.{◌≡◌, ℕ, Bool, true, List, Option};
ghost use Rattle.std.specs.List.{list_all};
ghost use Rattle.mk_profile.specs.declared.profile.Profile.{Profile};
ghost use Rattle.mk_nodes.specs.declared.graph.Graph.{Graph};
ghost use Rattle.mk_plan.specs.Passage.{Passage, is_listed};
ghost use Rattle.dmk_reading.specs.Passing.{Lists};
ghost use Rattle.dmk_dry.specs.Planned.{Plans};
ghost use Rattle.dmk_reading.specs.declared.makefiles.Makefiles.{Makefiles};
ghost use Rattle.st_disk.specs.declared.which.Which.{Which};
ghost use Rattle.bd_lists.specs.declared.recipe.Variable.{Variable};
ghost use Rattle.mk_eval.specs.Output.{World};
ghost use Rattle.mk_nodes.specs.declared.file_look.FileLook.{FileLook};

use st_disk::Disk;

/// A plan has one listing, whichever nodes were remade before it.
pub fn one_listing()
    ensures { (keeping : Bool) (graph : Graph) (marks : List Bool) (order : List ℕ) (a b : List Passage)
        → Lists keeping graph marks order a → Lists keeping graph marks order b → a ≡ b }
{}

/// Where all targets are to be made, a plan has none that is up to date: it lists the recipe of each that has one.
pub fn each_made<D: Disk>()
    ensures { (world : World) (looks : List ℕ → Option FileLook) (makefiles : Makefiles) (profile : Profile) (definitions environment : List Variable)
        (targets : List (List ℕ)) (goes_on : Bool) (seen : Which → List ℕ) (plan : List Passage) (dropped : Bool) (unmade : List (List ℕ))
        → Plans world looks makefiles profile definitions environment targets true goes_on D.honest seen plan dropped unmade → list_all is_listed plan ≡ true }
{}

/// By the same files, looks and state there is one plan: two plans list the same, and soft edges make a cycle in both or in none.
/// Where state is kept, that is where the disk keeps its model.
pub fn one_plan<D: Disk>()
    ensures { (world : World) (looks : List ℕ → Option FileLook) (makefiles : Makefiles) (profile : Profile) (definitions environment : List Variable)
        (targets : List (List ℕ)) (all goes_on : Bool) (seen : Which → List ℕ) (a b : List Passage) (d e : Bool) (u v : List (List ℕ)) → D.honest
        → Plans world looks makefiles profile definitions environment targets all goes_on D.honest seen a d u
        → Plans world looks makefiles profile definitions environment targets all goes_on D.honest seen b e v
        → (a ≡ b) × (d ≡ e) }
{}
