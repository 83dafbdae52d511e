//! Hashes in buckets: of each bucket the place of the last hash that fell there, and of each hash the place of the one
//! before it in its bucket. Places are counted from 1, so that 0 says that there is none.
//! A chain goes down, so that its search ends. Hashes in slots, where a search goes on to the next slot, take a table twice as
//! large and are no faster: a null build of 49,000 targets takes as long, and 3 % longer where names lie beside each other, since
//! their runs join (27 November 2026).

ghost use Rattle.std.specs.Prelude.{◌≡◌, ◌<◌, ◌≤◌, ◌^◌, length, set, replicate, slice_index, OnOk};
ghost use Rattle.mk_names.specs.Chains.{bucket, AreChained};
ghost use Rattle.mk_names.specs.Links.{hashes_of, AreLinked};

use std::alloc::{AllocError, Global};

// A place fits 32 bits.
const MAX_BUCKETS: usize = 1 << 31;

const FEWEST_BUCKETS: usize = 16;

/// The bucket of a hash. Their number is a power of two.
pub(crate) fn bucket_of(hash: u32, buckets: usize) -> usize
    requires { 0 < buckets }
    ensures value { result ≡ bucket buckets hash }
    ensures within { result < buckets }
{
    hash as usize & (buckets - 1)
}

/// Empty buckets for as many hashes, where there is memory for them.
pub(crate) fn buckets_for(alloc: Global, hashes: usize) -> Vec<u32>
    ensures empty { result.items ≡ replicate (length result.items) 0 }
    ensures few { length result.items ≤ 2 ^ 31 }
{
    if hashes == 0 || hashes > MAX_BUCKETS / 2 {
        return Vec::new(alloc);
    }
    match Vec::from_elem(alloc, 0, hashes.next_power_of_two()) {
        Ok(buckets) => buckets,
        Err(_) => Vec::new(alloc),
    }
}

/// Makes a place the last of the bucket of its hash, and answers which was.
pub(crate) fn put_last(heads: &mut [u32], hash: u32, place: u32) -> u32
    requires { 0 < length heads.old }
    ensures before { result ≡ slice_index heads.old (bucket (length heads.old) hash) }
    ensures heads { heads.new ≡ set heads.old (bucket (length heads.old) hash) place }
{
    let bucket = bucket_of(hash, heads.len());
    let before = heads[bucket];
    heads[bucket] = place;
    before
}

/// A hash, and the place of the one before it in its bucket.
#[derive(Drop)]
pub(crate) struct Link {
    pub hash: u32,
    pub before: u32,
}

/// Chains hashes anew, over buckets that are empty.
fn chain(links: &mut [Link], heads: &mut [u32])
    requires empty { heads.old ≡ replicate (length heads.old) 0 }
    requires room { length links.old < length heads.old }
    requires few { length heads.old ≤ 2 ^ 31 }
    ensures same { hashes_of links.new ≡ hashes_of links.old }
    ensures chained { AreLinked links.new heads.new }
{
    let mut place = 0;
    for number in 0..links.len() {
        place += 1;
        let before = put_last(heads, links[number].hash, place);
        links[number].before = before;
    }
}

/// Makes room for one more hash: there are never more hashes than buckets.
pub(crate) fn make_room(
    alloc: Global,
    links: &mut Vec<Link>,
    heads: &mut Vec<u32>,
) -> Result<(), AllocError>
    requires { AreLinked links.old.items heads.old.items }
    ensures count { length links.new.items ≡ length links.old.items }
    ensures same { hashes_of links.new.items ≡ hashes_of links.old.items }
    ensures chained { AreLinked links.new.items heads.new.items }
    ensures room { OnOk result (length links.new.items < length heads.new.items) }
{
    if links.len() < heads.len() {
        return Ok(());
    }
    if links.len() > MAX_BUCKETS / 2 {
        return Err(AllocError);
    }
    let mut anew = Vec::from_elem(alloc, 0, FEWEST_BUCKETS.max(2 * links.len()))?;
    chain(links, &mut anew);
    *heads = anew;
    Ok(())
}
