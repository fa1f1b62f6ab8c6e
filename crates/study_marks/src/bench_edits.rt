//! Edits of a bench.
ghost use Rattle.std.specs.Prelude.{◌≡◌, ◌+◌, ◌⊎◌, [], ◌∷◌, length, map, slice_set, OnOk, OnErr};
ghost use Rattle.std.specs.Prelude.{IfOk, IfErr, IsOk, MatchOption, Some, None, Ok, Err, true};
ghost use Rattle.study_material.specs.declared.class.Class.{Class as AClass};
ghost use Rattle.study_values.specs.declared.fault.SourceFault.{SourceFault as ASourceFault};
ghost use Rattle.study_moves.specs.Rules.{after};
ghost use Rattle.study_tree.specs.Forest.{none};
ghost use Rattle.study_tree.specs.Edits.{children_at};
ghost use Rattle.study_tree.specs.Tree.{size_of};
ghost use Rattle.study_marks.specs.Bench.{text_of};
ghost use Rattle.study_marks.specs.Study.{plain_study, position_at, tag_index, IsPlayable};
ghost use Rattle.study_tree.specs.Tree.{with_child, without, moved_up};
ghost use Rattle.study_marks.specs.declared.node_label.Evaluation.{Evaluation as AnEvaluation};
ghost use Rattle.study_marks.specs.BenchState.{marked_study, evaluation_tree, IsKeptRight};
ghost use Rattle.study_marks.specs.Queries.{asked_at, positions_asked, is_of_tables, AllHeld, IsOutside, HasAsked, failures_after, counted_up_by};
ghost use Rattle.study_marks.specs.EditLists.{AreKeptAfter, IsShiftRefusal, IsStopped, TellsStop, questions_of, AreAccepted, labels_by, HasAskedBy};
ghost use Rattle.study_marks.specs.EditLists.{failures_stopped, IsApplied};
ghost use Rattle.study_marks.specs.Edits.{first_illegal_from, with_position, with_start, with_stipulation, with_insertion, with_deletion};
ghost use Rattle.study_marks.specs.Edits.{with_promotion, with_tag, edited_by, accepted_of, insert_refusal, delete_refusal};
ghost use Rattle.study_marks.specs.Edits.{promote_refusal, shift_refusal, is_printable, is_tag_text, tag_refusal};
ghost use Rattle.std.specs.List.{list_all};
ghost use Rattle.study_marks.specs.Answers.{TellsFirstFault, IsUndamaged};

use crate::bench::Bench;
use crate::child_by_move::find_child;
use crate::edit::{Edit, Stopped};
use crate::evaluate::evaluate;
use crate::evaluate_all::evaluate_all;
use crate::mark_rules::aim_of;
use crate::node_label::NodeLabel;
use crate::refusal::Refusal;
use crate::relabel::{find_illegal_move, relabel_all};
use crate::stipulation::Stipulation;
use crate::tag::{TagName, tag_place};
use crate::tree_edits::{add_node, promote_node, remove_node};
use arrayvec::{ArrayString, ArrayVec};
use std::alloc::Allocator;
use study_board::Position;
use study_moves::{Move, played};
use study_notation::Start;
use study_tree::{MAX_DEPTH, MAX_NODES, Path, Tree};
use study_values::Values;

impl<'a, A: Allocator> Bench<'a, A> {
    /// A study with the root alone and no tags.
    pub fn new<V: Values>(
        alloc: &'a A,
        start: Start,
        stipulation: Stipulation,
        values: &mut V,
    ) -> Result<Bench<'a, A>, Refusal<'a, A>>
        // Many clauses: those of the study after the edit, and those of the values that it probes.
        ensures refusal { IfErr result
            (IsOutside (V.source.held values.old) (asked_at start.position)) }
        ensures takes_no_memory { IfErr result (λ e. is_of_tables e ≡ true) }
        ensures no_damage { V.source.is_honest values.old → IfErr result IsUndamaged }
        ensures first { IfErr result
            (TellsFirstFault V.source values.old (asked_at start.position) values.new) }
        ensures found { OnOk result (AllHeld (V.source.held values.old) (asked_at start.position)) }
        ensures made { IfOk result (λ b. plain_study (marked_study b) ≡ record {
          start = start;
          stipulation = stipulation;
          tags = None ∷ None ∷ None ∷ None ∷ None ∷ None ∷ [];
          tree = record { label = tt; below = none };
        }) }
        ensures right { V.source.is_honest values.old → IfOk result IsKeptRight }
        ensures relabelled { IfOk result (λ b. b.relabelled ≡ 1) }
        ensures asked { HasAsked (length (asked_at start.position)) result
            (V.source.asked_of values.old) (V.source.asked_of values.new) }
        ensures failures { V.source.failed_of values.new
            ≡ failures_after result (V.source.failed_of values.old) }
        ensures honest { V.source.is_honest values.old → V.source.is_honest values.new }
        ensures fails_as_before { (c : AClass) (f : ASourceFault) → V.source.may_fail values.new c f
            → V.source.may_fail values.old c f }
        ensures tables { (c : AClass) → V.source.held values.new c ≡ V.source.held values.old c }
    {
        let evaluated = evaluate(&start.position, values)?;
        Ok(Bench {
            alloc,
            start,
            stipulation,
            tags: [None; 6],
            tree: Tree::new(
                alloc,
                NodeLabel {
                    evaluated,
                    faults: 0,
                },
            ),
        })
    }

    /// Sets another start, and keeps the root alone.
    pub fn set_position<V: Values>(
        &mut self,
        start: Start,
        values: &mut V,
    ) -> Result<(), Refusal<'a, A>>
        // Many clauses: those of the study after the edit, and those of the values that it probes.
        ensures refusal { IfErr result
            (IsOutside (V.source.held values.old) (asked_at start.position)) }
        ensures takes_no_memory { IfErr result (λ e. is_of_tables e ≡ true) }
        ensures no_damage { V.source.is_honest values.old → IfErr result IsUndamaged }
        ensures first { IfErr result
            (TellsFirstFault V.source values.old (asked_at start.position) values.new) }
        ensures found { OnOk result (AllHeld (V.source.held values.old) (asked_at start.position)) }
        ensures edited { OnOk result
            (plain_study (marked_study self.new) ≡ with_position
            (plain_study (marked_study self.old)) start) }
        ensures right { V.source.is_honest values.old → OnOk result (IsKeptRight self.new) }
        ensures relabelled { OnOk result (self.new.relabelled ≡ 1) }
        ensures asked { HasAsked (length (asked_at start.position)) result
            (V.source.asked_of values.old) (V.source.asked_of values.new) }
        ensures failures { V.source.failed_of values.new
            ≡ failures_after result (V.source.failed_of values.old) }
        ensures honest { V.source.is_honest values.old → V.source.is_honest values.new }
        ensures fails_as_before { (c : AClass) (f : ASourceFault) → V.source.may_fail values.new c f
            → V.source.may_fail values.old c f }
        ensures tables { (c : AClass) → V.source.held values.new c ≡ V.source.held values.old c }
        ensures same { OnErr result (self.new ≡ self.old) }
    {
        let evaluated = evaluate(&start.position, values)?;
        self.tree = Tree::new(
            self.alloc,
            NodeLabel {
                evaluated,
                faults: 0,
            },
        );
        self.start = start;
        Ok(())
    }

    /// Sets another start, and keeps the tree, each move of which must be legal.
    pub fn shift_position<V: Values>(
        &mut self,
        start: Start,
        values: &mut V,
    ) -> Result<(), Refusal<'a, A>>
        // Many clauses: those of the study after the edit, and those of the values that it probes.
        ensures broken { OnOk result
            (first_illegal_from 0 start.position (marked_study self.old).tree.below ≡ None) }
        ensures refusal { IfErr result
            (IsShiftRefusal (V.source.held values.old)
            (positions_asked (with_start (plain_study (marked_study self.old)) start))
            (shift_refusal (plain_study (marked_study self.old)) start)) }
        ensures edited { OnOk result
            (plain_study (marked_study self.new) ≡ with_start
            (plain_study (marked_study self.old)) start) }
        ensures right { V.source.is_honest values.old → OnOk result (IsKeptRight self.new) }
        ensures relabelled { OnOk result
            (self.new.relabelled
            ≡ counted_up_by (size_of (marked_study self.old).tree) self.old.relabelled) }
        ensures no_damage { V.source.is_honest values.old → IfErr result IsUndamaged }
        ensures first { IfErr result (TellsFirstFault V.source values.old
            (positions_asked (with_start (plain_study (marked_study self.old)) start)) values.new) }
        ensures found { OnOk result
            (AllHeld (V.source.held values.old)
            (positions_asked (with_start (plain_study (marked_study self.old)) start))) }
        ensures asked { HasAsked
            (length (positions_asked (with_start (plain_study (marked_study self.old)) start))) result
            (V.source.asked_of values.old) (V.source.asked_of values.new) }
        ensures failures { V.source.failed_of values.new
            ≡ failures_after result (V.source.failed_of values.old) }
        ensures honest { V.source.is_honest values.old → V.source.is_honest values.new }
        ensures fails_as_before { (c : AClass) (f : ASourceFault) → V.source.may_fail values.new c f
            → V.source.may_fail values.old c f }
        ensures tables { (c : AClass) → V.source.held values.new c ≡ V.source.held values.old c }
        ensures same { OnErr result (self.new ≡ self.old) }
    {
        let mut steps = ArrayVec::new();
        if find_illegal_move(&self.tree.root(), &start.position, &mut steps) {
            return Err(shift_broken_at(self.alloc, steps.as_slice()));
        }
        self.annotate(start, values)
    }

    /// Adds a last child to the node, by a move that is legal there and that no child has; returns its place.
    pub fn insert<V: Values>(
        &mut self,
        path: &Path<'a, A>,
        m: Move,
        values: &mut V,
    ) -> Result<u16, Refusal<'a, A>>
        // Many clauses: those of the study after the edit, and those of the values that it probes.
        ensures refusal { MatchOption
            (insert_refusal (plain_study (marked_study self.old)) path.now m)
            (IfErr result
            (IsOutside (V.source.held values.old)
            (asked_at (after (position_at (marked_study self.old) path.now) m))))
            (λ fault. result ≡ Err fault) }
        ensures no_damage { V.source.is_honest values.old → IfErr result IsUndamaged }
        ensures first { IfErr result (TellsFirstFault V.source values.old
            (asked_at (after (position_at (marked_study self.old) path.now) m)) values.new) }
        ensures found { OnOk result
            (AllHeld (V.source.held values.old)
            (asked_at (after (position_at (marked_study self.old) path.now) m))) }
        ensures edited { OnOk result
            (plain_study (marked_study self.new)
            ≡ with_insertion (plain_study (marked_study self.old)) path.now m) }
        ensures kept { OnOk result ((evaluated : AnEvaluation)
            × (evaluation_tree self.new.study.tree
            ≡ with_child (evaluation_tree self.old.study.tree) path.now m evaluated)) }
        ensures place { IfOk result
            (λ k. k ≡ children_at (marked_study self.old).tree.below path.now) }
        ensures right { V.source.is_honest values.old → IsKeptRight self.old
            → OnOk result (IsKeptRight self.new) }
        ensures relabelled { OnOk result
            (self.new.relabelled ≡ counted_up_by (length path.now + 2) self.old.relabelled) }
        ensures asked { HasAsked
            (length (asked_at (after (position_at (marked_study self.old) path.now) m))) result
            (V.source.asked_of values.old)
            (V.source.asked_of values.new) }
        ensures failures { V.source.failed_of values.new
            ≡ failures_after result (V.source.failed_of values.old) }
        ensures honest { V.source.is_honest values.old → V.source.is_honest values.new }
        ensures fails_as_before { (c : AClass) (f : ASourceFault) → V.source.may_fail values.new c f
            → V.source.may_fail values.old c f }
        ensures tables { (c : AClass) → V.source.held values.new c ≡ V.source.held values.old c }
        ensures same { OnErr result (self.new ≡ self.old) }
    {
        let steps = path.steps();
        let before = self.check_insert(steps, &m)?;
        if self.tree.reserve(steps).is_err() {
            return Err(Refusal::OutOfMemory);
        }
        let evaluated = evaluate(&played(&before, m), values)?;
        let aim = aim_of(&self.stipulation, self.start.position.to_move());
        let place = add_node(&aim, &mut self.tree, steps, &m, evaluated);
        Ok(place)
    }

    /// Sets another stipulation.
    pub fn set_stipulation(&mut self, stipulation: Stipulation)
        ensures edited { plain_study (marked_study self.new)
            ≡ with_stipulation (plain_study (marked_study self.old)) stipulation }
        ensures kept { evaluation_tree self.new.study.tree ≡ evaluation_tree self.old.study.tree }
        ensures right { IsKeptRight self.old → IsKeptRight self.new }
        ensures relabelled { self.new.relabelled
            ≡ counted_up_by (size_of (marked_study self.old).tree) self.old.relabelled }
    {
        let aim = aim_of(&stipulation, self.start.position.to_move());
        relabel_all(&aim, &mut self.tree, &[]);
        self.stipulation = stipulation;
    }

    /// Removes the node, with all nodes below it.
    pub fn delete(&mut self, path: &Path<'a, A>) -> Result<(), Refusal<'a, A>>
        ensures refusal { MatchOption
            (delete_refusal (plain_study (marked_study self.old)) path.now)
            (IsOk result) (λ fault. result ≡ Err fault) }
        ensures edited { OnOk result
            (plain_study (marked_study self.new)
            ≡ with_deletion (plain_study (marked_study self.old)) path.now) }
        ensures kept { OnOk result
            (evaluation_tree self.new.study.tree
            ≡ without (evaluation_tree self.old.study.tree) path.now) }
        ensures right { IsKeptRight self.old → OnOk result (IsKeptRight self.new) }
        ensures relabelled { OnOk result
            (self.new.relabelled ≡ counted_up_by (length path.now) self.old.relabelled) }
        ensures same { OnErr result (self.new ≡ self.old) }
    {
        let aim = aim_of(&self.stipulation, self.start.position.to_move());
        remove_node(&aim, &mut self.tree, path.steps())?;
        Ok(())
    }

    /// Exchanges the node with the one before it.
    pub fn promote(&mut self, path: &Path<'a, A>) -> Result<(), Refusal<'a, A>>
        ensures refusal { MatchOption
            (promote_refusal (plain_study (marked_study self.old)) path.now)
            (IsOk result) (λ fault. result ≡ Err fault) }
        ensures edited { OnOk result
            (plain_study (marked_study self.new)
            ≡ with_promotion (plain_study (marked_study self.old)) path.now) }
        ensures kept { OnOk result
            (evaluation_tree self.new.study.tree
            ≡ moved_up (evaluation_tree self.old.study.tree) path.now) }
        ensures right { IsKeptRight self.old → OnOk result (IsKeptRight self.new) }
        ensures relabelled { OnOk result
            (self.new.relabelled ≡ counted_up_by (length path.now) self.old.relabelled) }
        ensures same { OnErr result (self.new ≡ self.old) }
    {
        let aim = aim_of(&self.stipulation, self.start.position.to_move());
        promote_node(&aim, &mut self.tree, path.steps())?;
        Ok(())
    }

    /// Sets another text of a tag.
    pub fn set_tag(&mut self, name: TagName, text: &str) -> Result<(), Refusal<'a, A>>
        ensures refusal { MatchOption (tag_refusal text.now) (IsOk result)
            (λ fault. result ≡ Err fault) }
        ensures edited { OnOk result
            (plain_study (marked_study self.new)
            ≡ with_tag (plain_study (marked_study self.old)) name text.now) }
        ensures kept { self.new.study.tree ≡ self.old.study.tree }
        ensures right { IsKeptRight self.old → OnOk result (IsKeptRight self.new) }
        ensures relabelled { self.new.relabelled ≡ self.old.relabelled }
        ensures same { OnErr result (self.new ≡ self.old) }
    {
        if !is_tag_text(text.as_bytes()) {
            return Err(Refusal::TagText);
        }
        match ArrayString::from(text) {
            Err(_) => Err(Refusal::TagText),
            Ok(text) => {
                set_tag_text(&mut self.tags, name, text);
                Ok(())
            }
        }
    }

    /// Probes every value anew.
    pub fn reannotate<V: Values>(&mut self, values: &mut V) -> Result<(), Refusal<'a, A>>
        // Many clauses: those of the study after the edit, and those of the values that it probes.
        ensures refusal { IfErr result
            (IsOutside (V.source.held values.old) (positions_asked (marked_study self.old))) }
        ensures study { OnOk result
            (plain_study (marked_study self.new) ≡ plain_study (marked_study self.old)) }
        ensures right { V.source.is_honest values.old → OnOk result (IsKeptRight self.new) }
        ensures relabelled { OnOk result
            (self.new.relabelled
            ≡ counted_up_by (size_of (marked_study self.old).tree) self.old.relabelled) }
        ensures no_damage { V.source.is_honest values.old → IfErr result IsUndamaged }
        ensures first { IfErr result
            (TellsFirstFault V.source values.old (positions_asked (marked_study self.old)) values.new) }
        ensures found { OnOk result
            (AllHeld (V.source.held values.old) (positions_asked (marked_study self.old))) }
        ensures asked { HasAsked (length (positions_asked (marked_study self.old))) result
            (V.source.asked_of values.old) (V.source.asked_of values.new) }
        ensures failures { V.source.failed_of values.new
            ≡ failures_after result (V.source.failed_of values.old) }
        ensures honest { V.source.is_honest values.old → V.source.is_honest values.new }
        ensures fails_as_before { (c : AClass) (f : ASourceFault) → V.source.may_fail values.new c f
            → V.source.may_fail values.old c f }
        ensures tables { (c : AClass) → V.source.held values.new c ≡ V.source.held values.old c }
        ensures same { OnErr result (self.new ≡ self.old) }
    {
        let start = self.start.copied();
        self.annotate(start, values)
    }

    /// Applies the edits in order, up to the first that is refused.
    pub fn apply_all<V: Values>(
        &mut self,
        edits: &[Edit<'a, A>],
        values: &mut V,
    ) -> Result<(), Stopped<'a, A>>
        // Many clauses: those of the study after the edit, and those of the values that it probes.
        ensures stopped { IfErr result (λ s.
            IsStopped (V.source.held values.old)
            (plain_study (marked_study self.old)) edits.now s.done s.refusal) }
        ensures no_damage { V.source.is_honest values.old
            → IfErr result (λ s. IsUndamaged s.refusal) }
        ensures first { IfErr result
            (TellsStop V.source values.old values.new (plain_study (marked_study self.old)) edits.now) }
        ensures accepted { AreAccepted (V.source.held values.old)
            (plain_study (marked_study self.old))
            (accepted_of result edits.now) }
        ensures edited { plain_study (marked_study self.new)
            ≡ edited_by (plain_study (marked_study self.old)) (accepted_of result edits.now) }
        ensures kept { AreKeptAfter (evaluation_tree self.old.study.tree)
            (accepted_of result edits.now) (evaluation_tree self.new.study.tree) }
        ensures right { V.source.is_honest values.old
            → IsKeptRight self.old → IsKeptRight self.new }
        ensures relabelled { self.new.relabelled
            ≡ labels_by (plain_study (marked_study self.old))
            (accepted_of result edits.now) self.old.relabelled }
        ensures asked { HasAskedBy (plain_study (marked_study self.old)) edits.now result
            (V.source.asked_of values.old) (V.source.asked_of values.new) }
        ensures failures { V.source.failed_of values.new
            ≡ failures_stopped result (V.source.failed_of values.old) }
        ensures honest { V.source.is_honest values.old → V.source.is_honest values.new }
        ensures fails_as_before { (c : AClass) (f : ASourceFault) → V.source.may_fail values.new c f
            → V.source.may_fail values.old c f }
        ensures tables { (c : AClass) → V.source.held values.new c ≡ V.source.held values.old c }
        ensures same { accepted_of result edits.now ≡ [] → self.new ≡ self.old }
    {
        let mut done = 0;
        for edit in edits {
            if let Err(refusal) = self.apply(edit, values) {
                return Err(Stopped { done, refusal });
            }
            done += 1;
        }
        Ok(())
    }

    /// The position of the node, if the move may be inserted there.
    fn check_insert(&self, steps: &[u16], m: &Move) -> Result<Position, Refusal<'a, A>>
        ensures refusal { MatchOption
            (insert_refusal (plain_study (marked_study self.now)) steps.now m.now) (IsOk result)
            (λ fault. result ≡ Err fault) }
        ensures position { IfOk result (λ p. p ≡ position_at self.now.study steps.now) }
    {
        let before = self.check_move(steps, m)?;
        if let Some(place) = find_child(&self.tree, steps, m) {
            return Err(Refusal::AlreadyThere(place));
        }
        if steps.len() >= MAX_DEPTH {
            return Err(Refusal::TooDeep);
        }
        if self.tree.size() >= MAX_NODES {
            return Err(Refusal::TreeFull);
        }
        Ok(before)
    }

    /// Sets another start, from which each move of the tree is legal, and keeps the tree: probes every value, then writes all labels.
    fn annotate<V: Values>(&mut self, start: Start, values: &mut V) -> Result<(), Refusal<'a, A>>
        // Many clauses: those of the study after the edit, and those of the values that it probes.
        requires playable { IsPlayable start.position self.old.study.tree.below }
        ensures refusal { IfErr result
            (IsOutside (V.source.held values.old)
            (positions_asked (with_start (plain_study (marked_study self.old)) start))) }
        ensures no_damage { V.source.is_honest values.old → IfErr result IsUndamaged }
        ensures first { IfErr result (TellsFirstFault V.source values.old
            (positions_asked (with_start (plain_study (marked_study self.old)) start)) values.new) }
        ensures found { OnOk result
            (AllHeld (V.source.held values.old)
            (positions_asked (with_start (plain_study (marked_study self.old)) start))) }
        ensures edited { OnOk result
            (plain_study (marked_study self.new) ≡ with_start
            (plain_study (marked_study self.old)) start) }
        ensures right { V.source.is_honest values.old → OnOk result (IsKeptRight self.new) }
        ensures relabelled { OnOk result
            (self.new.relabelled
            ≡ counted_up_by (size_of (marked_study self.old).tree) self.old.relabelled) }
        ensures asked { HasAsked
            (length (positions_asked (with_start (plain_study (marked_study self.old)) start))) result
            (V.source.asked_of values.old) (V.source.asked_of values.new) }
        ensures failures { V.source.failed_of values.new
            ≡ failures_after result (V.source.failed_of values.old) }
        ensures honest { V.source.is_honest values.old → V.source.is_honest values.new }
        ensures fails_as_before { (c : AClass) (f : ASourceFault) → V.source.may_fail values.new c f
            → V.source.may_fail values.old c f }
        ensures tables { (c : AClass) → V.source.held values.new c ≡ V.source.held values.old c }
        ensures same { OnErr result (self.new ≡ self.old) }
    {
        let all = evaluate_all(self.alloc, &self.tree, &start.position, values)?;
        let aim = aim_of(&self.stipulation, start.position.to_move());
        relabel_all(&aim, &mut self.tree, all.as_slice());
        self.start = start;
        Ok(())
    }

    /// Applies one edit.
    fn apply<V: Values>(&mut self, edit: &Edit<'a, A>, values: &mut V) -> Result<(), Refusal<'a, A>>
        ensures applied { IsApplied V.source values.old values.new
            self.old self.new edit.now result }
        ensures fails_as_before { (c : AClass) (f : ASourceFault) → V.source.may_fail values.new c f
            → V.source.may_fail values.old c f }
        ensures no_damage { V.source.is_honest values.old → IfErr result IsUndamaged }
        ensures first { IfErr result (TellsFirstFault V.source values.old
            (questions_of (plain_study (marked_study self.old)) edit.now) values.new) }
    {
        match edit {
            Edit::Position(start) => self.set_position(start.copied(), values),
            Edit::Shift(start) => self.shift_position(start.copied(), values),
            Edit::Stipulate(stipulation) => {
                self.set_stipulation(*stipulation);
                Ok(())
            }
            Edit::Insert(path, m) => {
                let _place = self.insert(path, *m, values)?;
                Ok(())
            }
            Edit::Delete(path) => self.delete(path),
            Edit::Promote(path) => self.promote(path),
            Edit::Tag(name, text) => self.set_tag(*name, text.as_str()),
        }
    }
}

/// Sets the text of a tag.
fn set_tag_text(tags: &mut [Option<ArrayString<64>>; 6], name: TagName, text: ArrayString<64>)
    ensures { map text_of tags.new
        ≡ slice_set (map text_of tags.old) (tag_index name) (Some text.bytes) }
{
    tags[tag_place(name)] = Some(text);
}

/// The refusal of a shift that makes the move at the path illegal.
fn shift_broken_at<'a, A: Allocator>(alloc: &'a A, steps: &[u16]) -> Refusal<'a, A>
    ensures { (result ≡ Refusal.ShiftBroken steps.now) ⊎ (result ≡ Refusal.OutOfMemory) }
{
    let mut path = Path::root(alloc);
    for step in steps {
        if path.push(*step).is_err() {
            return Refusal::OutOfMemory;
        }
    }
    Refusal::ShiftBroken(path)
}

/// Whether these are 1 to 60 printable bytes.
fn is_tag_text(text: &[u8]) -> bool
    ensures { result ≡ is_tag_text text.now }
{
    1 <= text.len() && text.len() <= 60 && is_printable(text)
}

/// Whether each byte is printable ASCII.
pub fn is_printable(text: &[u8]) -> bool
    ensures { result ≡ list_all is_printable text.now }
{
    text.iter().all(|b| 32 <= *b && *b <= 126)
}
