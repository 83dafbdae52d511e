//! How many names a graph may hold.
ghost use Rattle.std.specs.Prelude.{◌≡◌};
ghost use Rattle.mk_rules.specs.Limit.{node_limit};

use mk_profile::Profile;

/// How many names a graph may hold in the strict profile.
pub const MAX_NODES: usize = 100_000;

/// How many it may hold in the wide one.
pub const MAX_WIDE_NODES: usize = 1_000_000;

/// How many names a graph of this profile may hold.
pub fn node_limit(profile: Profile) -> usize
    ensures { result ≡ node_limit profile }
{
    match profile {
        Profile::Strict => MAX_NODES,
        Profile::Posix => MAX_WIDE_NODES,
    }
}
