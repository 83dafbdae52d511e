//! What holds of all calls of a board. Nothing here runs: the body is empty.

ghost use Rattle.st_records.specs.declared.version.Form.{Form};
ghost use Rattle.bd_lists.specs.InTurn.{EachInTurn, EachInTurnIn};

/// Of each target a board takes a 'begun' first, and then at most one end, with the run of that very 'begun': no two nodes have
/// one name, so what one node's recipe came to never counts for another's.
pub fn each_in_turn()
    ensures { EachInTurn }
{}

/// So it is of a board of records of any form.
pub fn each_in_turn_in()
    ensures { (form : Form) → EachInTurnIn form }
{}
