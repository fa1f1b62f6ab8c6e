//! The tree.
ghost use Rattle.std.specs.Prelude.{◌≡◌, ◌+◌, ◌<◌, ◌≤◌, length, IsOk, IfOk, IfErr, OnErr, OnOk, MatchOption, IsOkUnless, Some, None, ◌≢◌};
ghost use Rattle.study_tree.specs.Forest.{none};
ghost use Rattle.study_tree.specs.Edits.{IsWithin, children_at, without_spares};
ghost use Rattle.study_text.specs.Counts.{next_count};
ghost use Rattle.study_tree.specs.Tree.{plain_tree, spare_of, size_of, has_spot, spot_at};
ghost use Rattle.study_tree.specs.Tree.{with_child, with_label, without, moved_up, child_refusal};
ghost use Rattle.study_tree.specs.Changes.{counted_by, with_changes, rewritten_tree};
ghost use Rattle.study_tree.specs.Tree.{removal_refusal, move_up_refusal, label_refusal};

use crate::branch::Subtree;
use crate::changes::{LabelChange, Rewriting, rewrite_below, update_below};
use crate::fault::TreeFault;
use crate::node::{
    Node, add_below, count_in, move_up_below, node_in, relabel_below, remove_below, reserve_below,
};
use std::alloc::Allocator;
use std::marker::Model;
use study_moves::Move;

/// The largest number of nodes of a tree, the root included.
pub const MAX_NODES: usize = 4096;

/// The largest number of moves of a path.
pub const MAX_DEPTH: usize = 256;

/// The contents of a node.
#[derive(Drop)]
pub struct NodeRef<'a, L> {
    pub played: Option<Move>,
    pub label: &'a L,
    pub children: u16,
}

/// A tree of moves with a label at each node.
#[derive(Drop)]
pub struct Tree<'a, L, A: Allocator> {
    alloc: &'a A,
    label: L,
    children: Vec<Node<'a, L, A>, &'a A>,
    size: usize,
    relabelled: u64,
}

impl<'a, L, A: Allocator> Model for Tree<'a, L, A> {
    ghost use Rattle.std.specs.Prelude.{◌≡◌, ◌+◌, ◌-◌, ◌≤◌, vec_len, vec_capacity};
    ghost use Rattle.study_tree.specs.Forest.{forest_of, nodes_in};
    ghost use Rattle.study_tree.specs.Edits.{IsWithin, without_spares};
    ghost use Rattle.study_tree.specs.Tree.{Held};
    ghost use Rattle.study_tree.specs.Codes.{held_code};

    ghost Value = { Held L };

    ghost coded = { held_code L.code };

    ghost view = { λ t. record {
      label = t.label;
      spare = vec_capacity t.children - vec_len t.children;
      below = forest_of t.children.items;
      relabelled = t.relabelled;
    } };

    ghost invariant = { λ t. (t.size ≡ 1 + nodes_in (forest_of t.children.items))
        × (t.size ≤ 4096) × IsWithin 256 (without_spares (forest_of t.children.items)) };
}

impl<'a, L, A: Allocator> Tree<'a, L, A> {
    /// The root alone.
    pub fn new(alloc: &'a A, label: L) -> Self
        ensures tree { plain_tree result ≡ record { label = label; below = none } }
        ensures count { result.relabelled ≡ 0 }
    {
        Tree {
            alloc,
            label,
            children: Vec::new(alloc),
            size: 1,
            relabelled: 0,
        }
    }

    /// The number of nodes, the root included.
    pub fn size(&self) -> usize
        ensures size { result ≡ size_of (plain_tree self.now) }
        ensures few { size_of (plain_tree self.now) ≤ 4096 }
        ensures shallow { IsWithin 256 (plain_tree self.now).below }
    {
        self.size
    }

    /// The number of labels that `add_last` and `relabel` have written; it stays at the last value of u64.
    pub fn relabelled(&self) -> u64
        ensures { result ≡ self.now.relabelled }
    {
        self.relabelled
    }

    /// Whether there is a node at the path.
    fn has(&self, steps: &[u16]) -> bool
        ensures { result ≡ has_spot (plain_tree self.now) steps.now }
    {
        match steps.split_first() {
            None => true,
            Some((first, rest)) => node_in(&self.children, *first, rest).is_some(),
        }
    }

    /// The node at the path, `None` if there is no such node.
    pub fn node(&self, steps: &[u16]) -> Option<NodeRef<'_, L>>
        ensures { MatchOption result (spot_at (plain_tree self.now) steps.now ≡ None)
            (λ n. spot_at (plain_tree self.now) steps.now
            ≡ Some (record { played = n.played; label = n.label.now; children = n.children })) }
    {
        match steps.split_first() {
            None => Some(NodeRef {
                played: None,
                label: &self.label,
                children: self.children.len() as u16,
            }),
            Some((first, rest)) => match node_in(&self.children, *first, rest) {
                None => None,
                Some(node) => Some(NodeRef {
                    played: Some(node.played),
                    label: &node.label,
                    children: node.children.len() as u16,
                }),
            },
        }
    }

    /// The root, from which all nodes can be reached child by child.
    pub fn root(&self) -> Subtree<'_, 'a, L, A>
        ensures { result ≡ plain_tree self.now }
    {
        Subtree {
            label: &self.label,
            children: &self.children,
        }
    }

    /// Whether the node may have one more child, apart from memory.
    fn check_child(&self, steps: &[u16]) -> Result<(), TreeFault>
        ensures ok { OnOk result (child_refusal (plain_tree self.now) steps.now ≡ None) }
        ensures err { IfErr result (λ fault.
            child_refusal (plain_tree self.now) steps.now ≡ Some fault) }
    {
        if !self.has(steps) {
            Err(TreeFault::NoSuchNode)
        } else if steps.len() >= MAX_DEPTH {
            Err(TreeFault::TooDeep)
        } else if self.size >= MAX_NODES {
            Err(TreeFault::TreeFull)
        } else {
            Ok(())
        }
    }

    /// Makes room for one more child of the node, with the faults of `add_last`; changes no node and no count.
    pub fn reserve(&mut self, steps: &[u16]) -> Result<(), TreeFault>
        ensures refusal { MatchOption (child_refusal (plain_tree self.old) steps.now)
            (IsOkUnless result TreeFault.OutOfMemory) (λ fault. result ≡ Err fault) }
        ensures tree { plain_tree self.new ≡ plain_tree self.old }
        ensures count { self.new.relabelled ≡ self.old.relabelled }
        ensures room { OnOk result (0 < spare_of self.new steps.now) }
    {
        self.check_child(steps)?;
        match reserve_below(&mut self.children, steps) {
            Ok(()) => Ok(()),
            Err(_) => Err(TreeFault::OutOfMemory),
        }
    }
}

impl<'a, L: Drop, A: Allocator> Tree<'a, L, A> {
    /// Adds a last child to the node, and returns its place.
    pub fn add_last(&mut self, steps: &[u16], played: Move, label: L) -> Result<u16, TreeFault>
        ensures refusal { MatchOption (child_refusal (plain_tree self.old) steps.now)
            (IsOkUnless result TreeFault.OutOfMemory) (λ fault. result ≡ Err fault) }
        ensures added { OnOk result
            (plain_tree self.new ≡ with_child (plain_tree self.old) steps.now played label) }
        ensures place { IfOk result
            (λ k. k ≡ children_at (without_spares self.old.below) steps.now) }
        ensures count { OnOk result (self.new.relabelled ≡ next_count self.old.relabelled) }
        ensures room { 0 < spare_of self.old steps.now → result ≢ Err TreeFault.OutOfMemory }
        ensures same { OnErr result (plain_tree self.new ≡ plain_tree self.old) }
        ensures same_count { OnErr result (self.new.relabelled ≡ self.old.relabelled) }
    {
        self.check_child(steps)?;
        let place = match add_below(
            self.alloc,
            &mut self.children,
            steps,
            played,
            &mut Some(label),
        ) {
            Ok(place) => place,
            Err(_) => return Err(TreeFault::OutOfMemory),
        };
        self.size += 1;
        self.relabelled = self.relabelled.saturating_add(1);
        Ok(place)
    }

    /// Writes the node's label.
    pub fn relabel(&mut self, steps: &[u16], mut label: L) -> Result<(), TreeFault>
        ensures refusal { MatchOption (label_refusal (plain_tree self.old) steps.now) (IsOk result)
            (λ fault. result ≡ Err fault) }
        ensures written { OnOk result
            (plain_tree self.new ≡ with_label (plain_tree self.old) steps.now label) }
        ensures count { OnOk result (self.new.relabelled ≡ next_count self.old.relabelled) }
        ensures same { OnErr result (self.new ≡ self.old) }
    {
        if !self.has(steps) {
            return Err(TreeFault::NoSuchNode);
        }
        match steps.split_first() {
            None => self.label = label,
            Some((first, rest)) => relabel_below(&mut self.children, *first, rest, &mut label),
        }
        self.relabelled = self.relabelled.saturating_add(1);
        Ok(())
    }

    /// Changes the labels along the path, from the root to the path's node.
    pub fn change_along<C: LabelChange<L>>(
        &mut self,
        steps: &[u16],
        change: &C,
    ) -> Result<(), TreeFault>
        ensures refusal { MatchOption (label_refusal (plain_tree self.old) steps.now) (IsOk result)
            (λ fault. result ≡ Err fault) }
        ensures changed { OnOk result
            (plain_tree self.new
            ≡ with_changes (C.changed change.now) (plain_tree self.old) steps.now) }
        ensures count { OnOk result
            (self.new.relabelled ≡ counted_by (length steps.now + 1) self.old.relabelled) }
        ensures same { OnErr result (self.new ≡ self.old) }
    {
        if !self.has(steps) {
            return Err(TreeFault::NoSuchNode);
        }
        change.change(0, &mut self.label);
        if let Some((first, rest)) = steps.split_first() {
            update_below(&mut self.children, 1, *first, rest, change);
        }
        self.relabelled = self.relabelled.saturating_add(steps.len() as u64 + 1);
        Ok(())
    }

    /// Writes all labels, in written order.
    pub fn rewrite<W: Rewriting<L>>(&mut self, by: &W)
        ensures written { plain_tree self.new
            ≡ rewritten_tree (W.pass by.now) (plain_tree self.old) }
        ensures count { self.new.relabelled
            ≡ counted_by (size_of (plain_tree self.old)) self.old.relabelled }
    {
        by.begin(&mut self.label);
        rewrite_below(by, 0, 1, &mut self.label, &mut self.children);
        self.relabelled = self.relabelled.saturating_add(self.size as u64);
    }

    /// Removes the node, with all nodes below it.
    pub fn remove(&mut self, steps: &[u16]) -> Result<(), TreeFault>
        ensures refusal { MatchOption (removal_refusal (plain_tree self.old) steps.now)
            (IsOk result) (λ fault. result ≡ Err fault) }
        ensures removed { OnOk result
            (plain_tree self.new ≡ without (plain_tree self.old) steps.now) }
        ensures count { self.new.relabelled ≡ self.old.relabelled }
        ensures same { OnErr result (self.new ≡ self.old) }
    {
        if !self.has(steps) {
            return Err(TreeFault::NoSuchNode);
        }
        match steps.split_first() {
            None => Err(TreeFault::Root),
            Some((first, rest)) => {
                let removed = remove_below(&mut self.children, *first, rest);
                self.size -= 1 + count_in(&removed.children);
                Ok(())
            }
        }
    }

    /// Exchanges the node with the one before it.
    pub fn move_up(&mut self, steps: &[u16]) -> Result<(), TreeFault>
        ensures refusal { MatchOption (move_up_refusal (plain_tree self.old) steps.now)
            (IsOk result) (λ fault. result ≡ Err fault) }
        ensures moved { OnOk result
            (plain_tree self.new ≡ moved_up (plain_tree self.old) steps.now) }
        ensures count { self.new.relabelled ≡ self.old.relabelled }
        ensures same { OnErr result (self.new ≡ self.old) }
    {
        if !self.has(steps) {
            return Err(TreeFault::NoSuchNode);
        }
        match (steps.split_first(), steps.last()) {
            (Some((first, rest)), Some(last)) => {
                if *last == 0 {
                    return Err(TreeFault::AlreadyFirst);
                }
                move_up_below(&mut self.children, *first, rest);
                Ok(())
            }
            _ => Err(TreeFault::Root),
        }
    }
}
