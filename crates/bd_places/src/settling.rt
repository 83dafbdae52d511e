//! What settles once a node has.

ghost use Rattle.std.specs.Prelude.{◌≡◌, ℕ, ◌+◌, ◌<◌, ◌&&◌, nat_eq, true, false, length, slice_index, slice_index_or, if◌then◌else◌};
ghost use Rattle.mk_graph.specs.Edges.{has};
ghost use Rattle.bd_places.specs.Settling.{standing, gone_on, looked_at, Settles, IsStanding};
ghost use Rattle.bd_places.specs.Tally.{prerequisites_of, IsTallied};

use crate::End;
use crate::tally::Tally;
use bd_links::{Links, Node, Stand};

fn is_waiting(links: &Links, node: Node) -> bool
    requires { node < links.now.nodes }
    ensures { result ≡ has links.now.lists.waiting node }
{
    matches!(links.list_of(node), Stand::Waiting)
}

/// Lets a node go on that waited for nothing more.
fn go_on(links: &mut Links, ends: &mut [Option<End>], node: Node, is_doomed: bool)
    requires node { node < links.old.nodes }
    requires end { node < length ends.old }
    ensures links { links.new ≡ record links.old { lists = links.new.lists } }
    ensures standing { standing links.new.lists ends.new ≡ gone_on is_doomed node (standing links.old.lists ends.old) }
{
    if is_doomed {
        ends[node.number()] = Some(End::Abandoned);
        links.move_to(node, Stand::Settled);
    } else {
        links.move_to(node, Stand::Ready);
    }
}

/// Lets a user of a settled node go on where it is in Waiting and lacks nothing.
fn pass(tally: &Tally, links: &mut Links, ends: &mut [Option<End>], user: Node)
    requires node { user < links.old.nodes }
    requires nodes { links.old.nodes ≡ length tally.now.counted }
    requires end { length ends.old ≡ length tally.now.counted }
    requires missing { length tally.now.missing.items ≡ length tally.now.counted }
    requires doomed { length tally.now.doomed.items ≡ length tally.now.counted }
    ensures links { links.new ≡ record links.old { lists = links.new.lists } }
    ensures standing { standing links.new.lists ends.new ≡ (
        if has links.old.lists.waiting user && nat_eq (slice_index tally.now.missing.items user) 0
        then gone_on (slice_index_or tally.now.doomed.items user false) user (standing links.old.lists ends.old)
        else standing links.old.lists ends.old) }
{
    if is_waiting(links, user) && tally.missing[user.number()] == 0 {
        go_on(links, ends, user, tally.doomed[user.number()]);
    }
}

/// Lets those users of a settled node go on that are in Waiting and lack nothing.
fn look_at(tally: &Tally, links: &mut Links, ends: &mut [Option<End>], node: Node)
    requires node { node < links.old.nodes }
    requires nodes { links.old.nodes ≡ length tally.now.counted }
    requires standing { IsStanding (prerequisites_of tally.now) links.old.nodes (standing links.old.lists ends.old) }
    requires tallied { IsTallied tally.now links.old.lists.settled ends.old }
    ensures links { links.new ≡ record links.old { lists = links.new.lists } }
    ensures standing { standing links.new.lists ends.new
        ≡ looked_at (prerequisites_of tally.now) node (standing links.old.lists ends.old) }
{
    let users = tally.users.row(node.number());
    for user in users {
        pass(tally, links, ends, Node::new(*user as usize));
    }
}

/// Settles a node, and with it what it frees and can't be made.
pub(crate) fn settle(
    tally: &mut Tally,
    links: &mut Links,
    ends: &mut [Option<End>],
    node: Node,
    end: End,
)
    requires node { node < links.old.nodes }
    requires unsettled { has links.old.lists.settled node ≡ false }
    requires nodes { links.old.nodes ≡ length tally.old.counted }
    requires standing { IsStanding (prerequisites_of tally.old) links.old.nodes (standing links.old.lists ends.old) }
    requires tallied { IsTallied tally.old links.old.lists.settled ends.old }
    ensures edges { prerequisites_of tally.new ≡ prerequisites_of tally.old }
    ensures links { links.new ≡ record links.old { lists = links.new.lists } }
    ensures settles { Settles (prerequisites_of tally.old) node end
        (standing links.old.lists ends.old) (standing links.new.lists ends.new) }
    ensures standing { IsStanding (prerequisites_of tally.new) links.new.nodes (standing links.new.lists ends.new) }
    ensures tallied { IsTallied tally.new links.new.lists.settled ends.new }
{
    links.move_to(node, Stand::Settled);
    ends[node.number()] = Some(end);
    tally.count(node, Some(end));
    let mut last = node;
    let mut looked = Some(node);
    while let Some(next) = looked {
        look_at(tally, links, ends, next);
        last = tally.count_behind(links, ends, last);
        looked = links.after(next);
    }
}
