//! The classes that positions need.
ghost use Rattle.std.specs.Prelude.{◌≡◌, ◌↔◌, ◌≤◌, ◌<◌, ◌+◌, ◌++◌, ◌∷◌, [], true, List, length};
ghost use Rattle.std.specs.List.{Contains};
ghost use Rattle.arrayvec.specs.ArrayVec.{array_vec_len};
ghost use Rattle.study_material.specs.declared.class.Class.{Class as AClass};
ghost use Rattle.study_material.specs.Needs.{NeedsClass};
ghost use Rattle.study_view.specs.Setup.{IsNeededBy, AreThose, AreClassesNeeded};

use arrayvec::ArrayVec;
use study_board::Position;
use study_material::{
    CLASS_COUNT, Class, class_of, classes_by_size, order, positions_have_one_class,
};

/// Whether the class is in the list.
fn is_in(classes: &[Class], class: Class) -> bool
    ensures { (result ≡ true) ↔ Contains classes.now class }
{
    match classes.split_first() {
        None => false,
        Some((first, rest)) => {
            if *first == class {
                return true;
            }
            is_in(rest, class)
        }
    }
}

/// Whether the position is of the class, or of one that needs it.
fn needs_class(p: &Position, class: Class) -> bool
    ensures { (result ≡ true) ↔ NeedsClass p.now class }
{
    positions_have_one_class();
    let _men = p.men();
    let (own, _) = class_of(p);
    is_in(order(own).as_slice(), class)
}

/// Whether one of the positions is of the class, or of one that needs it.
fn is_needed(positions: &[Position], class: Class) -> bool
    ensures { (result ≡ true) ↔ IsNeededBy positions.now class }
{
    match positions.split_first() {
        None => false,
        Some((p, rest)) => needs_class(p, class) || is_needed(rest, class),
    }
}

/// Appends a class to the list.
fn push_class(class: Class, list: &mut ArrayVec<Class, CLASS_COUNT>)
    requires { array_vec_len list.old < 36 }
    ensures items { list.new.items ≡ list.old.items ++ class ∷ [] }
    ensures len { array_vec_len list.new ≡ array_vec_len list.old + 1 }
{
    list.push(class);
}

/// Adds those of these classes that the positions need.
fn add_needed(positions: &[Position], classes: &[Class], list: &mut ArrayVec<Class, CLASS_COUNT>)
    requires { array_vec_len list.old + length classes.now ≤ 36 }
    ensures { (more : List AClass) × AreThose (IsNeededBy positions.now) classes.now more
        × (list.new.items ≡ list.old.items ++ more) }
{
    match classes.split_first() {
        None => {}
        Some((class, rest)) => {
            if is_needed(positions, *class) {
                push_class(*class, list);
                return add_needed(positions, rest, list);
            }
            add_needed(positions, rest, list)
        }
    }
}

/// The classes whose tables have the values of these positions and of all positions that they can lead to, in the order in which to build the tables.
pub fn classes_needed(positions: &[Position]) -> ArrayVec<Class, CLASS_COUNT>
    ensures { AreClassesNeeded positions.now result.items }
{
    let mut list = ArrayVec::new();
    add_needed(positions, classes_by_size(), &mut list);
    list
}
