//! What holds of the definitions alone. The functions do nothing: what they ensure is the law.
ghost use Rattle.std.specs.Prelude.{◌≡◌, ◌+◌, ◌++◌, ◌≤◌, ℕ, Bool, false, List, Some, length, drop, take, option_to_list};
ghost use Rattle.std.specs.Option.{option_copied};
ghost use Rattle.st_marks.specs.Encoding.{IsText};
ghost use Rattle.st_marks.specs.declared.mark.Mark.{Mark};
ghost use Rattle.mk_marks.specs.Noted.{noted};
ghost use Rattle.mk_verdict.specs.declared.mark.Mark.TheVariants.{Unknown};
ghost use Rattle.jb_marks.specs.declared.before.Before.{Before};
ghost use Rattle.jb_marks.specs.declared.names.Names.{Names};
ghost use Rattle.jb_marks.specs.declared.sights.Sight.{Sight};
ghost use Rattle.jb_marks.specs.Before.{made_names};
ghost use Rattle.jb_marks.specs.Done.{AreMarks};
ghost use Rattle.jb_marks.specs.Each.{EachWith};
ghost use Rattle.jb_marks.specs.Laws.{AreDone, AreSettled, IsHistory, IsLookBefore, IsSureMark, look_of, prerequisites};

use crate::earlier::Earlier;
use crate::sights::Sights;

/// A 'done' has one mark for each name, and what is read back of its text is just these marks, in the place of each.
pub fn one_mark_each<P: Sights, E: Earlier>(_place: &P, _run: &E)
    ensures count { (names : Names) (before : Before) (behind : List Sight) (reported : List (List ℕ)) (marks : List Mark)
        → AreDone (P.told _place.now) (E.said _run.now) (P.ticked _place.now) names before behind reported marks
        → length marks ≡ length (made_names names) + length (prerequisites names reported) }
    ensures read { (names : Names) (before : Before) (behind : List Sight) (reported : List (List ℕ)) (marks : List Mark) (text : List ℕ)
        → AreDone (P.told _place.now) (E.said _run.now) (P.ticked _place.now) names before behind reported marks
        → IsText (option_copied names.source) marks text
        → noted (Some text) (option_copied names.source) (length names.others.now) (length names.explicit.now + length reported)
        ≡ record { source_changed = false; kept = record { marks = marks; other = Unknown } } }
{}

/// The mark of a prerequisite's file, but for one that the recipe writes itself, is a look at the place that counts.
pub fn marks_are_sure<P: Sights, E: Earlier>(_place: &P, _run: &E)
    ensures { (names : Names) (before : Before) (behind : List Sight) (reported : List (List ℕ)) (marks : List Mark)
        → AreDone (P.told _place.now) (E.said _run.now) (P.ticked _place.now) names before behind reported marks
        → EachWith (IsSureMark (P.told _place.now) (E.said _run.now) before.tick) (prerequisites names reported) (drop (length behind) marks) }
{}

/// The marks of the source and of the explicit prerequisites are those from before the recipe, whatever is told or reported behind it.
pub fn named_before<P: Sights, E: Earlier>(_place: &P, _run: &E)
    ensures { (before : Before) (behind : List Sight) (reported : List (List ℕ)) (marks : List Mark)
        → AreMarks (P.told _place.now) (E.said _run.now) before behind reported marks
        → take (length (option_to_list before.source ++ before.explicit.items)) (drop (length behind) marks) ≡ option_to_list before.source ++ before.explicit.items }
{}

/// In any history in which the place told the truth, and in which a change shows in a file's ctime, each mark of a prerequisite's file is
/// a settled look from before the recipe was begun, but for those that the recipe writes itself: the premise of mk_verdict's law
/// `made_of_what_is_there`.
pub fn marks_are_looks_before<P: Sights, E: Earlier>(_place: &P, _run: &E)
    ensures { (names : Names) (before : Before) (behind : List Sight) (reported : List (List ℕ)) (marks : List Mark)
        → AreDone (P.told _place.now) (E.said _run.now) (P.ticked _place.now) names before behind reported marks
        → (read begun ended : ℕ) (there : List ℕ → ℕ → Sight) (settled : List ℕ → ℕ → Bool)
        → IsHistory (P.told _place.now) (E.said _run.now) before.tick read ended there → AreSettled (E.said _run.now) before.tick read there settled
        → read ≤ begun
        → EachWith (IsLookBefore (λ name at. look_of (there name at)) settled begun) (prerequisites names reported) (drop (length behind) marks) }
{}
