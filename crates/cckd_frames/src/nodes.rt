//! All nodes, linked by raw pointers.
ghost use Rattle.std.specs.Prelude.{◌≡◌, ◌*◌, ◌<◌, ◌≤◌, [], length, replicate, Option};
ghost use denote.RawPtr.{InBlock};

use crate::block::Row;
use crate::node::{Node, NodePtr, Way};
use std::marker::Model;

pub(crate) struct Nodes {
    row: Row<Node>,
    first: NodePtr,
}

impl Model for Nodes {
    ghost use Rattle.cckd_frames.specs.Placed.{Placed, words_of, IsStored};

    ghost Value = { Placed };

    ghost view = { λ n. record { first = n.first.ptr; words = words_of n.first.ptr n.row.items } };

    ghost invariant = { λ n. IsStored n.first.ptr n.row };
}

impl Nodes {
    ghost use Rattle.cckd_frames.specs.Nodes.{key_column, members_column, length_column, flag_column, mark_column, word, with_word, flag_of, mark_word};
    ghost use Rattle.cckd_frames.specs.Table.{mark_of, marked};
    ghost use Rattle.cckd_frames.specs.Placed.{IsNode, number_of, column_of};

    /// `size` nodes, each linked to the first alone.
    pub(crate) fn new(mut row: Row<Node>, first: NodePtr, size: u32) -> Nodes
        requires row { (row.at ≡ first.ptr) × InBlock first.ptr × (row.items ≡ []) × (row.room ≡ size) }
        requires size { (1 ≤ size) × (size ≤ 8193) }
        ensures first { result.first ≡ first.ptr }
        ensures words { result.words ≡ replicate (9 * size) 0 }
    {
        for number in 0..size {
            let end = unsafe { first.ptr.offset(number as isize) };
            row.push(end, Node::new(first, number));
        }
        Nodes { row, first }
    }

    /// The row of the nodes, and where it begins.
    pub(crate) fn into_row(self) -> (Row<Node>, NodePtr)
        ensures row { (result.0.at ≡ self.first) × (9 * result.0.room ≡ length self.words) }
        ensures first { result.1.ptr ≡ self.first }
    {
        let Nodes { row, first } = self;
        (row, first)
    }

    /// The node with this number.
    pub(crate) fn at(&self, number: u32) -> NodePtr
        requires { 9 * number < length self.now.words }
        ensures node { IsNode self.now result.ptr }
        ensures number { number_of self.now result.ptr ≡ number }
    {
        NodePtr {
            ptr: unsafe { self.first.ptr.offset(number as isize) },
        }
    }

    pub(crate) fn number(&self, at: NodePtr) -> u32
        requires { IsNode self.now at.ptr }
        ensures { result ≡ number_of self.now at.ptr }
    {
        self.row.item(at.ptr).number
    }

    pub(crate) fn link(&self, at: NodePtr, way: Way) -> NodePtr
        requires { IsNode self.now at.ptr }
        ensures node { IsNode self.now result.ptr }
        ensures value { number_of self.now result.ptr ≡ word self.now.words (column_of way) (number_of self.now at.ptr) }
    {
        self.row.item(at.ptr).link(way)
    }

    pub(crate) fn set_link(&mut self, at: NodePtr, way: Way, to: NodePtr)
        requires nodes { IsNode self.old at.ptr × IsNode self.old to.ptr }
        ensures first { self.new.first ≡ self.old.first }
        ensures words { self.new.words ≡ with_word self.old.words (column_of way) (number_of self.old at.ptr) (number_of self.old to.ptr) }
    {
        self.row.item_mut(at.ptr).set_link(way, to);
    }

    pub(crate) fn key(&self, at: NodePtr) -> u32
        requires { IsNode self.now at.ptr }
        ensures { result ≡ word self.now.words key_column (number_of self.now at.ptr) }
    {
        self.row.item(at.ptr).key
    }

    pub(crate) fn set_key(&mut self, at: NodePtr, key: u32)
        requires { IsNode self.old at.ptr }
        ensures first { self.new.first ≡ self.old.first }
        ensures words { self.new.words ≡ with_word self.old.words key_column (number_of self.old at.ptr) key }
    {
        self.row.item_mut(at.ptr).key = key;
    }

    /// How many nodes a bucket's ring links.
    pub(crate) fn members(&self, at: NodePtr) -> u32
        requires { IsNode self.now at.ptr }
        ensures { result ≡ word self.now.words members_column (number_of self.now at.ptr) }
    {
        self.row.item(at.ptr).members
    }

    pub(crate) fn set_members(&mut self, at: NodePtr, members: u32)
        requires { IsNode self.old at.ptr }
        ensures first { self.new.first ≡ self.old.first }
        ensures words { self.new.words ≡ with_word self.old.words members_column (number_of self.old at.ptr) members }
    {
        self.row.item_mut(at.ptr).members = members;
    }

    pub(crate) fn len(&self, at: NodePtr) -> u32
        requires { IsNode self.now at.ptr }
        ensures { result ≡ word self.now.words length_column (number_of self.now at.ptr) }
    {
        self.row.item(at.ptr).len
    }

    pub(crate) fn set_len(&mut self, at: NodePtr, len: u32)
        requires { IsNode self.old at.ptr }
        ensures first { self.new.first ≡ self.old.first }
        ensures words { self.new.words ≡ with_word self.old.words length_column (number_of self.old at.ptr) len }
    {
        self.row.item_mut(at.ptr).len = len;
    }

    pub(crate) fn mark(&self, at: NodePtr) -> Option<u32>
        requires { IsNode self.now at.ptr }
        ensures { result ≡ mark_of (word self.now.words flag_column (number_of self.now at.ptr)) (word self.now.words mark_column (number_of self.now at.ptr)) }
    {
        self.row.item(at.ptr).mark
    }

    pub(crate) fn set_mark(&mut self, at: NodePtr, mark: Option<u32>)
        requires { IsNode self.old at.ptr }
        ensures first { self.new.first ≡ self.old.first }
        ensures words { self.new.words ≡ marked (number_of self.old at.ptr) mark self.old.words }
    {
        self.row.item_mut(at.ptr).mark = mark;
    }
}
