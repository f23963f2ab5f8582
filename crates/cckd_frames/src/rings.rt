//! The rings: the frames in use are linked from the head, most recent first, and those whose keys fall
//! into one bucket from that bucket. The nodes are numbered: the frames, as many buckets, and the head.
ghost use Rattle.std.specs.Prelude.{◌≡◌, ◌≢◌, ◌+◌, ◌-◌, ◌*◌, ◌<◌, ◌≤◌, ◌==◌, if◌then◌else◌, length, IfSome, option_map};
ghost use Rattle.cckd_frames.specs.Nodes.{older_column, newer_column, after_column, before_column, key_column, members_column, length_column, flag_column, mark_column};
ghost use Rattle.cckd_frames.specs.Nodes.{word as word_of, with_word, linked, unlinked};
ghost use Rattle.cckd_frames.specs.Placed.{IsNode, number_of, column_of};
ghost use Rattle.cckd_frames.specs.Table.{IsTable, bucket_of as bucket_node, IsEmptied, members_of, node_with, nth_after, brought, given_up, blanked, taken, chosen, cleared, mark_of, marked};

use crate::node::{NodePtr, Way};
use crate::nodes::Nodes;

/// Takes a node out of its ring.
fn unlink(nodes: &mut Nodes, next: Way, prev: Way, node: NodePtr)
    requires { IsNode nodes.old node.ptr }
    ensures first { nodes.new.first ≡ nodes.old.first }
    ensures words { nodes.new.words ≡ unlinked (column_of next) (column_of prev) (number_of nodes.old node.ptr) nodes.old.words }
{
    let before = nodes.link(node, prev);
    let after = nodes.link(node, next);
    nodes.set_link(before, next, after);
    nodes.set_link(after, prev, before);
}

/// Puts a node into a ring, after the node `at`.
fn link(nodes: &mut Nodes, next: Way, prev: Way, at: NodePtr, node: NodePtr)
    requires { IsNode nodes.old at.ptr × IsNode nodes.old node.ptr }
    ensures first { nodes.new.first ≡ nodes.old.first }
    ensures words { nodes.new.words ≡ linked (column_of next) (column_of prev) (number_of nodes.old at.ptr) (number_of nodes.old node.ptr) nodes.old.words }
{
    let after = nodes.link(at, next);
    nodes.set_link(node, prev, at);
    nodes.set_link(node, next, after);
    nodes.set_link(after, prev, node);
    nodes.set_link(at, next, node);
}

/// The number of the bucket that a key falls into.
fn bucket_of(count: u32, key: u32) -> u32
    requires { (1 ≤ count) × (count ≤ 4096) }
    ensures { result ≡ bucket_node count key }
{
    count + key % count
}

/// The first of the nodes linked from a bucket that has the key.
fn search(nodes: &Nodes, bucket: NodePtr, key: u32) -> Option<NodePtr>
    requires { IsNode nodes.now bucket.ptr }
    ensures node { IfSome result (λ n. IsNode nodes.now n.ptr) }
    ensures found { option_map (λ n. number_of nodes.now n.ptr) result ≡ node_with nodes.now.words key (members_of (number_of nodes.now bucket.ptr) nodes.now.words) }
{
    let mut node = bucket;
    let mut left = nodes.members(bucket);
    while left > 0 {
        node = nodes.link(node, Way::After);
        if nodes.key(node) == key {
            return Some(node);
        }
        left -= 1;
    }
    None
}

/// The frame of the entry with the key.
pub(crate) fn frame_with(nodes: &Nodes, count: u32, key: u32) -> Option<u32>
    requires count { (1 ≤ count) × (count ≤ 4096) }
    requires table { IsTable count nodes.now.words }
    ensures { result ≡ node_with nodes.now.words key (members_of (bucket_node count key) nodes.now.words) }
{
    let bucket = nodes.at(bucket_of(count, key));
    let Some(node) = search(nodes, bucket, key) else {
        return None;
    };
    Some(nodes.number(node))
}

/// The frame whose entry has `place` entries before it.
pub(crate) fn frame_at(nodes: &Nodes, count: u32, place: u32) -> u32
    requires count { count ≤ 4096 }
    requires table { IsTable count nodes.now.words }
    ensures within { result ≤ 2 * count }
    ensures value { result ≡ nth_after nodes.now.words older_column (2 * count) (place + 1) }
{
    let mut node = nodes.link(nodes.at(2 * count), Way::Older);
    let mut left = place;
    while left > 0 {
        node = nodes.link(node, Way::Older);
        left -= 1;
    }
    nodes.number(node)
}

/// Brings the entry of a frame to the front.
pub(crate) fn bring(nodes: &mut Nodes, count: u32, frame: u32)
    requires count { count ≤ 4096 }
    requires table { IsTable count nodes.old.words }
    requires frame { frame < count }
    ensures first { nodes.new.first ≡ nodes.old.first }
    ensures table { IsTable count nodes.new.words }
    ensures brought { nodes.new.words ≡ brought count frame nodes.old.words }
{
    let node = nodes.at(frame);
    let head = nodes.at(2 * count);
    unlink(nodes, Way::Older, Way::Newer, node);
    link(nodes, Way::Older, Way::Newer, head, node);
}

/// Takes a node's entry out of both of its rings.
fn give_up(nodes: &mut Nodes, count: u32, node: NodePtr)
    requires count { (1 ≤ count) × (count ≤ 4096) }
    requires table { IsTable count nodes.old.words }
    requires node { IsNode nodes.old node.ptr }
    requires member { 1 ≤ word_of nodes.old.words members_column (bucket_node count (word_of nodes.old.words key_column (number_of nodes.old node.ptr))) }
    ensures first { nodes.new.first ≡ nodes.old.first }
    ensures table { IsTable count nodes.new.words }
    ensures given_up { nodes.new.words ≡ given_up count (number_of nodes.old node.ptr) nodes.old.words }
{
    let bucket = nodes.at(bucket_of(count, nodes.key(node)));
    unlink(nodes, Way::Older, Way::Newer, node);
    unlink(nodes, Way::After, Way::Before, node);
    let members = nodes.members(bucket);
    nodes.set_members(bucket, members - 1);
}

/// Gives a frame that holds none a first entry, with no bytes and no mark.
pub(crate) fn enter(nodes: &mut Nodes, count: u32, frame: u32, key: u32)
    requires count { (1 ≤ count) × (count ≤ 4096) }
    requires table { IsTable count nodes.old.words }
    requires frame { frame < count }
    requires members { word_of nodes.old.words members_column (bucket_node count key) ≤ count }
    ensures first { nodes.new.first ≡ nodes.old.first }
    ensures table { IsTable count nodes.new.words }
    ensures taken { nodes.new.words ≡ taken count frame key nodes.old.words }
{
    let node = nodes.at(frame);
    let bucket = nodes.at(bucket_of(count, key));
    let head = nodes.at(2 * count);
    blank(nodes, node, key);
    link(nodes, Way::Older, Way::Newer, head, node);
    link(nodes, Way::After, Way::Before, bucket, node);
    let members = nodes.members(bucket);
    nodes.set_members(bucket, members + 1);
}

fn blank(nodes: &mut Nodes, node: NodePtr, key: u32)
    requires { IsNode nodes.old node.ptr }
    ensures first { nodes.new.first ≡ nodes.old.first }
    ensures blanked { nodes.new.words ≡ blanked (number_of nodes.old node.ptr) key nodes.old.words }
{
    nodes.set_key(node, key);
    nodes.set_len(node, 0);
    nodes.set_mark(node, None);
}

/// Finds a frame for the next entry. Where all are in use, the last entry is given up for it.
pub(crate) fn choose(nodes: &mut Nodes, count: u32, used: u32) -> u32
    requires count { (1 ≤ count) × (count ≤ 4096) × (used ≤ count) }
    requires table { IsTable count nodes.old.words }
    requires member { used ≡ count → 1 ≤ word_of nodes.old.words members_column (bucket_node count (word_of nodes.old.words key_column (word_of nodes.old.words newer_column (2 * count)))) }
    ensures first { nodes.new.first ≡ nodes.old.first }
    ensures table { IsTable count nodes.new.words }
    ensures chosen { result ≡ chosen count used nodes.old.words }
    ensures cleared { nodes.new.words ≡ cleared count used nodes.old.words }
{
    if used == count {
        let last = nodes.link(nodes.at(2 * count), Way::Newer);
        let frame = nodes.number(last);
        give_up(nodes, count, last);
        frame
    } else {
        used
    }
}

/// Links a node to itself alone.
fn loop_back(nodes: &mut Nodes, next: Way, prev: Way, node: NodePtr)
    requires { IsNode nodes.old node.ptr }
    ensures first { nodes.new.first ≡ nodes.old.first }
    ensures words { nodes.new.words
        ≡ with_word (with_word nodes.old.words (column_of next) (number_of nodes.old node.ptr) (number_of nodes.old node.ptr))
        (column_of prev) (number_of nodes.old node.ptr) (number_of nodes.old node.ptr) }
{
    nodes.set_link(node, next, node);
    nodes.set_link(node, prev, node);
}

/// Empties the ring from the head and those from the buckets.
pub(crate) fn clear(nodes: &mut Nodes, count: u32)
    requires count { count ≤ 4096 }
    requires table { IsTable count nodes.old.words }
    ensures first { nodes.new.first ≡ nodes.old.first }
    ensures table { IsTable count nodes.new.words }
    ensures emptied { IsEmptied count nodes.old.words nodes.new.words }
{
    let head = nodes.at(2 * count);
    loop_back(nodes, Way::Older, Way::Newer, head);
    for bucket in count..2 * count {
        clear_bucket(nodes, count, bucket);
    }
}

fn clear_bucket(nodes: &mut Nodes, count: u32, bucket: u32)
    requires table { IsTable count nodes.old.words }
    requires bucket { bucket < 2 * count }
    ensures first { nodes.new.first ≡ nodes.old.first }
    ensures table { IsTable count nodes.new.words }
    ensures cleared { nodes.new.words ≡ with_word (with_word (with_word nodes.old.words after_column bucket bucket) before_column bucket bucket) members_column bucket 0 }
{
    let node = nodes.at(bucket);
    loop_back(nodes, Way::After, Way::Before, node);
    nodes.set_members(node, 0);
}

/// The key of the last entry.
pub(crate) fn last_key(nodes: &Nodes, count: u32) -> u32
    requires count { count ≤ 4096 }
    requires table { IsTable count nodes.now.words }
    ensures { result ≡ word_of nodes.now.words key_column (word_of nodes.now.words newer_column (2 * count)) }
{
    nodes.key(nodes.link(nodes.at(2 * count), Way::Newer))
}

pub(crate) fn key_of(nodes: &Nodes, count: u32, frame: u32) -> u32
    requires table { IsTable count nodes.now.words }
    requires frame { frame ≤ 2 * count }
    ensures { result ≡ word_of nodes.now.words key_column frame }
{
    nodes.key(nodes.at(frame))
}

pub(crate) fn len_of(nodes: &Nodes, count: u32, frame: u32) -> u32
    requires table { IsTable count nodes.now.words }
    requires frame { frame < count }
    ensures { result ≡ word_of nodes.now.words length_column frame }
{
    nodes.len(nodes.at(frame))
}

pub(crate) fn put_len(nodes: &mut Nodes, count: u32, frame: u32, len: u32)
    requires table { IsTable count nodes.old.words }
    requires frame { frame < count }
    ensures first { nodes.new.first ≡ nodes.old.first }
    ensures table { IsTable count nodes.new.words }
    ensures len { nodes.new.words ≡ with_word nodes.old.words length_column frame len }
{
    let node = nodes.at(frame);
    nodes.set_len(node, len);
}

pub(crate) fn mark_at(nodes: &Nodes, count: u32, frame: u32) -> Option<u32>
    requires table { IsTable count nodes.now.words }
    requires frame { frame < count }
    ensures { result ≡ mark_of (word_of nodes.now.words flag_column frame) (word_of nodes.now.words mark_column frame) }
{
    nodes.mark(nodes.at(frame))
}

pub(crate) fn put_mark(nodes: &mut Nodes, count: u32, frame: u32, mark: Option<u32>)
    requires table { IsTable count nodes.old.words }
    requires frame { frame < count }
    ensures first { nodes.new.first ≡ nodes.old.first }
    ensures table { IsTable count nodes.new.words }
    ensures marked { nodes.new.words ≡ marked frame mark nodes.old.words }
{
    let node = nodes.at(frame);
    nodes.set_mark(node, mark);
}
